// What the tests of a year charge each seller, from the sums of their entries that stand.
#![tactic(auto)]

ghost use Rattle.std.specs.Prelude.{◌≡◌, ◌*◌, ◌/◌, ◌≤◌, ◌<◌};
ghost use Rattle.ids.specs.Ids.{any_to};
ghost use Rattle.limits.specs.Limits.{sellers, test_groups, close_limit, rate_limit};
ghost use Rattle.year.specs.Year.{deficit};
ghost use Rattle.owed.specs.Owed.{raised, test};
ghost use Rattle.settle_facts.specs.CellFacts.{facts};
ghost use Rattle.settle_table.specs.Places.{test_row};
ghost use Rattle.settle_table.specs.Rows.{Aside, Row, none};
ghost use Rattle.settle_tests.specs.Entries.{taken_at, Ready};
ghost use Rattle.settle_tests.specs.Sums.{charge_over, Summed};

use crate::sums::{Sums, sum_up};
use limits::{SELLERS, TEST_GROUPS};
use settle_table::Work;
use units::{Kilowatts, Nominated, Unforced};
use year_cells::YearCells;

mod sums;

// A seller's deficit in the test of a group, 0 where it is absent.
#[tactic(auto, using(crate::specs::Entries::test_cells))]
fn deficit_of(year: &YearCells, group: usize, s: usize) -> Unforced
    requires group_lt_test_groups { (group < test_groups) × (s < sellers) }
    ensures { result.0 ≡ deficit ((facts year.now.cells).test group).listing s }
{
    let p = year_cells::TESTS_PLACE + year_cells::TEST_WIDTH * group;
    Unforced::sum(year.cells[p + (year_cells::TEST_DEFICITS_IN + s)])
}

// The rate of a test: the average by committed kilowatts, a fifth more and at least 2,000 more.
#[tactic(auto, unfolding(owed::specs::Owed::raised))]
fn rate_of(worth: u64, committed: Nominated) -> u64
    requires { worth ≤ committed.0 * rate_limit }
    ensures { result ≡ raised (worth / committed.0) }
{
    let base = committed.average(worth);
    base + (base / 5).max(2000)
}

// A seller's charge of the test of a group: its shortfall at the test's rate, and the days before the rounding.
#[tactic(auto, using(crate::specs::Sums::sums_most))]
fn charge_of(year: &YearCells, sums: &Sums, group: usize, s: usize, days: u64) -> u64
    requires summed { Summed year.now.cells sums.now }
    requires group_lt_test_groups { (group < test_groups) × (s < sellers) × (days ≤ 366) }
    ensures { result ≡ charge_over (facts year.now.cells) group s days }
{
    let key = SELLERS * group + s;
    let committed = Nominated::sum(sums[sums::COMMITTED + key]);
    let reduction = Nominated::sum(sums[sums::REDUCTION + key]);
    let deficit = deficit_of(year, group, s);
    let shortfall = settle_facts::shortfall(year, committed, reduction, deficit);
    let rate = rate_of(sums[sums::WORTH + key], committed);
    shortfall.0 * rate * days / 1000
}

// A seller's test charges to date. A group without a test costs nothing.
#[tactic(auto, unfolding(ids::specs::Ids::sum_to))]
fn test_of(year: &YearCells, sums: &Sums, s: usize, k: u64) -> u64
    requires summed { Summed year.now.cells sums.now }
    requires s_lt_sellers { (s < sellers) × (1 ≤ k) × (k ≤ close_limit) }
    ensures { result ≡ test (facts year.now.cells) k s }
{
    let days = settle_facts::days_to(year, k);
    let mut sum: u64 = 0;
    for group in 0..TEST_GROUPS {
        if year_tested::test_taken(&year.cells, group) {
            sum += charge_of(year, sums, group, s, days);
        }
    }
    sum
}

// Is any test taken?
fn any_taken(year: &YearCells) -> bool
    ensures { result ≡ any_to test_groups (taken_at year.now.cells) }
{
    (0..TEST_GROUPS).any(|group| year_tested::test_taken(&year.cells, group))
}

// The test charges to date of each seller.
pub fn charge_tests(year: &YearCells, work: &mut Work, k: u64)
    requires ready { Ready year.now.cells work.old }
    requires row { Row work.old test_row sellers none }
    requires le_k { (1 ≤ k) × (k ≤ close_limit) }
    ensures charged { Row work.new test_row sellers (test (facts year.now.cells) k) }
    ensures aside { Aside test_row sellers work.old work.new }
{
    if !any_taken(year) {
        return;
    }
    let sums = sum_up(year, work);
    for s in 0..SELLERS {
        let test = test_of(year, &sums, s, k);
        settle_table::put(work, settle_table::TEST, s, test);
    }
}
