// The questions put to a retest.
#![tactic(auto)]

ghost use Rattle.std.specs.Prelude.{◌≡◌};
ghost use Rattle.ids.specs.Ids.{at};
ghost use Rattle.year_cells.specs.Layout.{listing_at, year_in};
ghost use Rattle.record_heads.specs.Within.{GroupWithin};
ghost use Rattle.refusals.specs.Numbers.{answered};
ghost use Rattle.question_list.specs.Questions.{lists_own, retest_in_time, Numbered};

use crate::retestable::may_retest;
use question_conditions::{Condition, Selection};
use question_list::{ask_open, may_test};
use question_listings::{every_listed, lists_exactly};
use record_heads::{Head, RetestHead};
use refusals::{Refusal, ask};
use year_cells::{LISTING_WIDTH, YearCells};

mod retestable;

// Question 10: is every listed registration known, of the zone and product, and the seller's?
fn lists_own(year: &YearCells, t: RetestHead, listing: &[u64; LISTING_WIDTH]) -> bool
    ensures { result ≡ lists_own (year_in year.now.cells) (listing_at (at listing.now)) t }
{
    every_listed(year, listing, Condition::InGroup(t.zone, t.product))
        && every_listed(year, listing, Condition::OfSeller(t.seller))
}

// Question 11: may the product be tested in the month, and is that, where there was a test, not before the test's?
fn in_time(year: &YearCells, t: RetestHead) -> bool
    requires group_within { GroupWithin t.zone t.product }
    ensures { result ≡ retest_in_time (year_in year.now.cells) t }
{
    if !may_test(year, t.product, t.month) {
        return false;
    }
    let group = year::group_of(t.zone, t.product) as usize;
    if !year_tested::test_taken(&year.cells, group) {
        return true;
    }
    year_tested::test_month(&year.cells, group) <= t.month
}

// The questions put to a retest.
pub fn ask_retest(
    year: &YearCells,
    t: RetestHead,
    listing: &[u64; LISTING_WIDTH],
) -> Result<(), Refusal>
    requires group_within { GroupWithin t.zone t.product }
    ensures { Numbered (year_in year.now.cells) (Head.Retest t) (listing_at (at listing.now)) (answered result) }
{
    ask_open(year)?;
    ask(lists_own(year, t, listing), Refusal::WrongEntries)?;
    ask(in_time(year, t), Refusal::WrongMonth)?;
    ask(may_retest(year, t), Refusal::NoRetest)?;
    let group = year::group_of(t.zone, t.product);
    ask(
        lists_exactly(year, listing, Selection::Failed(group, t.seller)),
        Refusal::OtherRetestEntries,
    )
}
