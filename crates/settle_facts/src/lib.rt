// What the closing reads of the year: of an event its entries, one look at a time, month, period, whether it is dual, and deficits; the factors.
#![tactic(auto, using(crate::specs::CellFacts::event_cells), unfolding(owed::specs::Owed::unforced))]

ghost use Rattle.std.specs.Prelude.{◌≡◌, ◌+◌, ◌*◌, ◌-◌, ◌≤◌, ◌<◌};
ghost use Rattle.ids.specs.Ids.{at};
ghost use Rattle.limits.specs.Limits.{registrations, sellers, event_limit, close_limit, nominated_sum};
ghost use Rattle.year_cells.specs.Places.{event_width, events_place};
ghost use Rattle.owed.specs.Owed.{one_or_three, D, unforced};
ghost use Rattle.settle_facts.specs.CellFacts.{facts, look_at};
ghost use Rattle.year.specs.Year.{deficit};

use units::{Kilowatts, Nominated, Unforced};
use year_cells::{Cells, YearCells};

#[derive(Clone, Copy)]
pub struct EventEntry {
    pub reduction: Nominated,
    pub second: Nominated,
}

// The number at place k of an event's row.
fn event_cell(year: &Cells, ev: usize, k: usize) -> u64
    requires ev_lt_event_limit { ev < event_limit }
    requires k_lt_event_width { k < event_width }
    ensures { result ≡ at year.now (events_place + event_width * ev + k) }
{
    year[year_cells::EVENTS_PLACE + year_cells::EVENT_WIDTH * ev + k]
}

// One look at an entry: nothing else reads one. Ok: the event lists the registration; Err: it does not. The row's numbers are told either way,
// as the clause says of every entry, so an Option would say too little.
pub fn look(year: &Cells, ev: usize, i: usize) -> Result<EventEntry, EventEntry>
    requires ev_lt_event_limit { ev < event_limit }
    requires i_lt_registrations { i < registrations }
    ensures { result ≡ look_at (facts year.now) ev i }
{
    let reduction = Nominated(event_cell(year, ev, year_cells::EVENT_REDUCTIONS_IN + i));
    let second = Nominated(event_cell(year, ev, year_cells::EVENT_SECOND_IN + i));
    let entry = EventEntry { reduction, second };
    if year_cells::listed_in(year, ev, i) {
        Ok(entry)
    } else {
        Err(entry)
    }
}

pub fn month_of(year: &Cells, ev: usize) -> u64
    requires { ev < event_limit }
    ensures { result ≡ ((facts year.now).event ev).month }
{
    event_cell(year, ev, year_cells::MONTH_IN)
}

// Is an event of period 1 or 3?
pub fn one_or_three(year: &Cells, ev: usize) -> bool
    requires { ev < event_limit }
    ensures { result ≡ one_or_three ((facts year.now).event ev).period }
{
    let period = event_cell(year, ev, year_cells::PERIOD_IN);
    period == 1 || period == 3
}

// Has an event two figures an entry?
pub fn is_dual(year: &Cells, ev: usize) -> bool
    requires { ev < event_limit }
    ensures { result ≡ ((facts year.now).event ev).dual }
{
    event_cell(year, ev, year_cells::DUAL_IN) != 0
}

// A seller's deficit in an event, 0 where it is absent, as `year.Year.deficit` has it (what may not change: its clause).
pub fn deficit_of(year: &Cells, ev: usize, s: usize) -> Unforced
    requires ev_lt_event_limit { ev < event_limit }
    requires s_lt_sellers { s < sellers }
    ensures { result.0 ≡ deficit ((facts year.now).event ev).listing s }
{
    Unforced(event_cell(year, ev, year_cells::EVENT_DEFICITS_IN + s))
}

// Converted by the year's factors: a registration's kilowatts, or a seller's sum.
pub fn unforced(year: &YearCells, kw: Nominated) -> Unforced
    requires kw_le_nominated_sum { kw.0 ≤ nominated_sum }
    ensures { result.0 ≡ unforced (facts year.now.cells) kw.0 }
{
    kw.unforced(
        year.cells[year_cells::FACTOR_PLACE],
        year.cells[year_cells::REQUIREMENT_PLACE],
    )
}

// A seller's shortfall: the net of two sums, converted, less its deficit.
pub fn shortfall(
    year: &YearCells,
    committed: Nominated,
    given: Nominated,
    deficit: Unforced,
) -> Unforced
    requires committed_le_nominated_sum { committed.0 ≤ nominated_sum }
    ensures { result.0 ≡ unforced (facts year.now.cells) (committed.0 - given.0) - deficit.0 }
{
    unforced(year, committed.less(given)).less(deficit)
}

// Days from 1 June to the end of a month.
pub fn days_to(year: &YearCells, k: u64) -> u64
    requires le_k { 1 ≤ k }
    requires k_le_close_limit { k ≤ close_limit }
    ensures { result ≡ D (facts year.now.cells) k }
{
    calendar::days(year.cells[year_cells::LEAP_PLACE], k)
}
