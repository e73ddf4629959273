// The questions put to an event and to a test.
#![tactic(auto)]

ghost use Rattle.std.specs.Prelude.{◌≡◌};
ghost use Rattle.ids.specs.Ids.{at};
ghost use Rattle.year_cells.specs.Layout.{listing_at, year_in};
ghost use Rattle.record_heads.specs.Within.{GroupWithin};
ghost use Rattle.refusals.specs.Numbers.{answered};
ghost use Rattle.question_list.specs.Questions.{month_begun, may_call, Numbered};

use limits::EVENT_LIMIT;
use question_conditions::{Condition, Selection};
use question_list::{ask_open, may_test, month_begun};
use question_listings::{entries_pass, every_listed, lists_exactly};
use record_heads::{EventHead, Head, TestHead};
use refusals::{Refusal, ask};
use year_cells::{LISTING_WIDTH, YearCells};

// Question 11 of an event: has the month begun, and may each listed product be called in the month and period?
fn may_call(year: &YearCells, e: EventHead, listing: &[u64; LISTING_WIDTH]) -> bool
    ensures { result ≡ may_call (year_in year.now.cells) month_begun (listing_at (at listing.now)) e }
{
    month_begun(year, e.month)
        && every_listed(year, listing, Condition::Callable(e.month, e.period))
}

// The questions put to an event.
pub fn ask_event(
    year: &YearCells,
    e: EventHead,
    listing: &[u64; LISTING_WIDTH],
) -> Result<(), Refusal>
    ensures { Numbered (year_in year.now.cells) (Head.Event e) (listing_at (at listing.now)) (answered result) }
{
    ask_open(year)?;
    ask(
        entries_pass(year, listing, Condition::InArea(e.area)),
        Refusal::WrongEntries,
    )?;
    ask(may_call(year, e, listing), Refusal::WrongMonth)?;
    ask(
        year_cells::events_accepted(&year.cells) < EVENT_LIMIT,
        Refusal::YearFull,
    )
}

// The questions put to a test. That its zone and product are within limits is a clause and not the head's type: `head_of` makes a head of any
// numbers (what may not change: its clause).
pub fn ask_test(
    year: &YearCells,
    t: TestHead,
    listing: &[u64; LISTING_WIDTH],
) -> Result<(), Refusal>
    requires group_within { GroupWithin t.zone t.product }
    ensures { Numbered (year_in year.now.cells) (Head.Test t) (listing_at (at listing.now)) (answered result) }
{
    ask_open(year)?;
    ask(
        entries_pass(year, listing, Condition::InGroup(t.zone, t.product)),
        Refusal::WrongEntries,
    )?;
    ask(may_test(year, t.product, t.month), Refusal::WrongMonth)?;
    let group = year::group_of(t.zone, t.product);
    ask(
        !year_tested::test_taken(&year.cells, group as usize),
        Refusal::TestedBefore,
    )?;
    ask(
        lists_exactly(year, listing, Selection::Undispatched(t.zone, t.product)),
        Refusal::OtherTestEntries,
    )
}
