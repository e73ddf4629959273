// The two passes over the entries of all tests and retests: which stand, and their sums by group and seller.
ghost use Rattle.std.specs.Prelude.{◌≡◌, cond, ◌<◌};
ghost use Rattle.ids.specs.Ids.{tabulate};
ghost use Rattle.limits.specs.Limits.{registrations};
ghost use Rattle.settle_tests.specs.Entries.{look_at, stands, Ready};
ghost use Rattle.settle_tests.specs.Sums.{addend_at, Summed};

use limits::{REGISTRATIONS, SELLERS, TEST_GROUPS};
use settle_table::Work;
use units::{Kilowatts, Nominated};
use year::Retest;
use year_cells::YearCells;

// By key, a group and a seller: what is committed, the reductions, and what is committed times its rate. Three rows of one array, no
// array of structs: what grows in a row is stated by the laws of the working table's rows, and would be no plainer by other laws.
pub type Sums = [u64; SUMS_WIDTH];

const KEYS: usize = SELLERS * TEST_GROUPS;

const KEYS_A_GROUP: u64 = SELLERS as u64;

pub const COMMITTED: usize = 0;

pub const REDUCTION: usize = COMMITTED + KEYS;

pub const WORTH: usize = REDUCTION + KEYS;

pub const SUMS_WIDTH: usize = WORTH + KEYS;

// An entry's reduction: the retested one, if there is one, else the first.
fn result(first: u64, retest: Retest) -> Nominated
    ensures { result.0 ≡ cond retest.taken retest.reduction first }
{
    if retest.taken {
        return Nominated(retest.reduction);
    }
    Nominated(first)
}

// One look at an entry of a test and at that of its retest: nothing else in the closing reads them.
fn look(year: &YearCells, i: usize) -> Option<Nominated>
    requires { i < registrations }
    ensures { result ≡ look_at year.now.cells i }
{
    if year.cells[year_cells::TEST_ENTRIES_PLACE + i] == 0 {
        return None;
    }
    let first = year.cells[year_cells::TEST_ENTRIES_PLACE + (year_cells::REDUCTIONS_IN + i)];
    Some(result(first, year_tested::retest_at(&year.cells, i)))
}

// Does an entry stand, since no event lists its registration?
#[tactic(auto, using(crate::specs::Entries::marked), unfolding(crate::specs::Entries::stands))]
fn stands(year: &YearCells, work: &Work, i: usize) -> bool
    requires ready { Ready year.now.cells work.now }
    requires i_lt_registrations { i < registrations }
    ensures { result ≡ stands year.now.cells i }
{
    look(year, i).is_some() && settle_table::get(work, settle_table::DISPATCHED, i) == 0
}

// Pass 1: which entries stand.
fn standing(year: &YearCells, work: &Work) -> [bool; REGISTRATIONS]
    requires { Ready year.now.cells work.now }
    ensures { result ≡ tabulate registrations (stands year.now.cells) }
{
    let mut standing = [false; REGISTRATIONS];
    for (i, place) in standing.iter_mut().enumerate() {
        *place = stands(year, work, i);
    }
    standing
}

// What an entry adds to the sums, and where.
#[derive(Clone, Copy)]
pub struct Addend {
    pub key: usize,
    pub committed: Nominated,
    pub reduction: Nominated,
    pub worth: u64,
}

// Pass 2: one look at an entry, with its registration's terms.
#[tactic(auto, using(crate::specs::Sums::terms_in))]
fn addend_of(year: &YearCells, work: &Work, i: usize) -> Option<Addend>
    requires ready { Ready year.now.cells work.now }
    requires i_lt_registrations { i < registrations }
    ensures { result ≡ addend_at year.now.cells i }
{
    let reduction = look(year, i)?;
    let committed = Nominated::new(settle_table::get(work, settle_table::COMMITTED, i));
    let key = KEYS_A_GROUP * settle_table::get(work, settle_table::GROUP, i)
        + settle_table::get(work, settle_table::SELLER, i);
    Some(Addend {
        key: key as usize,
        committed,
        reduction,
        worth: committed.0 * settle_table::get(work, settle_table::RATE, i),
    })
}

// The sums of all entries that stand.
pub fn sum_up(year: &YearCells, work: &Work) -> Sums
    requires { Ready year.now.cells work.now }
    ensures { Summed year.now.cells result }
{
    let standing = standing(year, work);
    let mut sums = [0u64; SUMS_WIDTH];
    for (i, stands) in standing.iter().enumerate() {
        if !*stands {
            continue;
        }
        if let Some(x) = addend_of(year, work, i) {
            settle_table::add_at(&mut sums, COMMITTED, x.key, x.committed.0);
            settle_table::add_at(&mut sums, REDUCTION, x.key, x.reduction.0);
            settle_table::add_at(&mut sums, WORTH, x.key, x.worth);
        }
    }
    sums
}
