// The year after an event or a close, made where it lies: a step lays a few rows. What comes before the first of them is in `setup`, tests and retests are in `year_test_steps`.
#![tactic(auto)]

ghost use Rattle.std.specs.Prelude.{◌≡◌, ◌<◌};
ghost use Rattle.limits.specs.Limits.{event_limit, close_limit};
ghost use Rattle.year.specs.Steps.{with_close};
ghost use Rattle.year.specs.Sound.{SoundEvent, SoundAmounts};
ghost use Rattle.year_cells.specs.Layout.{year_in};
ghost use Rattle.year_steps.specs.StepsLaid.{event_by, after_event};

use record_heads::EventHead;
use year::Amounts;
use year_cells::{
    BILLED_CREDIT_PLACE, BILLED_LSE_PLACE, BILLED_PLACE, BILLED_TEST_PLACE, CLOSED_PLACE,
    EVENT_LISTING_IN, EVENT_WIDTH, EVENTS_PLACE, LISTING_WIDTH, STARTED_PLACE, YearCells, lay,
};

mod setup;

pub use setup::{add_clearing, add_lse, add_opening, add_registration};

// One more event; its listing is a row by id: marks, reductions, deficits, second reductions.
pub fn add_event(year: &mut YearCells, e: EventHead, listing: &[u64; LISTING_WIDTH])
    requires year_bound { (year_in year.old.cells).accepted < event_limit }
    requires sound_event { SoundEvent (event_by e listing.now) }
    ensures { year_in year.new.cells ≡ after_event year.old.cells e listing.now }
{
    let n = year_cells::events_accepted(&year.cells);
    let dual = e.dual as u64;
    lay(
        &mut year.cells,
        EVENTS_PLACE + EVENT_WIDTH * n,
        &[e.area, e.month, e.period, dual],
    );
    lay(
        &mut year.cells,
        EVENTS_PLACE + EVENT_WIDTH * n + EVENT_LISTING_IN,
        listing,
    );
    lay(&mut year.cells, STARTED_PLACE, &[1, n as u64 + 1]);
}

// One more month closed, and what is billed by then.
pub fn add_close(year: &mut YearCells, billed: Amounts)
    requires year_bound { (year_in year.old.cells).closed < close_limit }
    requires sound_amounts { SoundAmounts billed }
    ensures { year_in year.new.cells ≡ with_close (year_in year.old.cells) billed }
{
    let z = year_cells::closed(&year.cells);
    let compliance = billed.compliance;
    let test = billed.test;
    let credit = billed.credit;
    let lse = billed.lse;
    lay(&mut year.cells, CLOSED_PLACE, &[z + 1, 1]);
    lay(&mut year.cells, BILLED_PLACE, &compliance);
    lay(&mut year.cells, BILLED_TEST_PLACE, &test);
    lay(&mut year.cells, BILLED_CREDIT_PLACE, &credit);
    lay(&mut year.cells, BILLED_LSE_PLACE, &lse);
}
