// The delivery year in one lent array of numbers: where its parts stand, how they are read, and how a row is laid.
#![tactic(auto)]

ghost use Rattle.std.specs.Prelude.{◌≡◌, ◌+◌, ◌≤◌, ◌<◌, length, get_or};
ghost use Rattle.limits.specs.Limits.{registrations, lses, event_limit};
ghost use Rattle.year_cells.specs.Places.{cell_count};
ghost use Rattle.year.specs.Year.{new_year, no_event, clearings_of, registration, obligation, listed};
ghost use Rattle.year_cells.specs.Rows.{Laid};
ghost use Rattle.year_cells.specs.Layout.{year_in, ValidCells};

use limits::{EVENT_LIMIT, LSES, REGISTRATIONS, SELLERS, TEST_GROUPS};
use units::Nominated;
use year::{Clearings, Registration};

// How many cells there are.
pub const CELLS: usize = RETEST_ENTRIES_PLACE + ENTRIES_WIDTH;

// A year's cells: single ones, then tables, one row an element. One flat array, since C holds it so (the C interface).
pub type Cells = [u64; CELLS];

// A year in its cells, which is sound: as many as they should be, and a sound year in them.
#[derive(Clone, Copy)]
#[repr(C)]
pub struct YearCells {
    pub cells: Cells,
    ghost valid: { ValidCells cells },
}

// The places of specs/Places.antt, in the same words. Single cells:
pub const CLOSED_PLACE: usize = 0;

pub const STARTED_PLACE: usize = 1;

pub const ACCEPTED_PLACE: usize = 2;

pub const OPENED_PLACE: usize = 3;

pub const LEAP_PLACE: usize = 4;

pub const FACTOR_PLACE: usize = 5;

pub const REQUIREMENT_PLACE: usize = 6;

// Tables.
pub const REGISTRATIONS_PLACE: usize = 7;

pub const OBLIGATIONS_PLACE: usize = REGISTRATIONS_PLACE + REGISTRATION_WIDTH * REGISTRATIONS;

pub const EVENTS_PLACE: usize = OBLIGATIONS_PLACE + LSES;

pub const TESTS_PLACE: usize = EVENTS_PLACE + EVENT_WIDTH * EVENT_LIMIT;

pub const TEST_ENTRIES_PLACE: usize = TESTS_PLACE + TEST_WIDTH * TEST_GROUPS;

pub const BILLED_PLACE: usize = TEST_ENTRIES_PLACE + ENTRIES_WIDTH;

pub const BILLED_TEST_PLACE: usize = BILLED_PLACE + SELLERS;

pub const BILLED_CREDIT_PLACE: usize = BILLED_TEST_PLACE + SELLERS;

pub const BILLED_LSE_PLACE: usize = BILLED_CREDIT_PLACE + SELLERS;

pub const CLEARINGS_PLACE: usize = BILLED_LSE_PLACE + LSES;

pub const RETEST_ENTRIES_PLACE: usize = CLEARINGS_PLACE + CLEARING_WIDTH * REGISTRATIONS;

// Rows: of a registration, of what its clearings come to, of an event, of a test, of all tests' or retests' entries.
pub const REGISTRATION_WIDTH: usize = 7;

pub const CLEARING_WIDTH: usize = 3;

pub const EVENT_WIDTH: usize = EVENT_LISTING_IN + LISTING_WIDTH;

pub const TEST_WIDTH: usize = TEST_DEFICITS_IN + SELLERS;

pub const ENTRIES_WIDTH: usize = REDUCTIONS_IN + REGISTRATIONS;

// In a listing's row: marks come first, then these.
pub const REDUCTIONS_IN: usize = REGISTRATIONS;

pub const DEFICITS_IN: usize = REDUCTIONS_IN + REGISTRATIONS;

pub const SECOND_IN: usize = DEFICITS_IN + SELLERS;

pub const LISTING_WIDTH: usize = SECOND_IN + REGISTRATIONS;

// In an event's row: its area, these, then its listing.
pub const MONTH_IN: usize = 1;

pub const PERIOD_IN: usize = 2;

pub const DUAL_IN: usize = 3;

pub const EVENT_LISTING_IN: usize = 4;

pub const EVENT_REDUCTIONS_IN: usize = EVENT_LISTING_IN + REDUCTIONS_IN;

pub const EVENT_DEFICITS_IN: usize = EVENT_LISTING_IN + DEFICITS_IN;

pub const EVENT_SECOND_IN: usize = EVENT_LISTING_IN + SECOND_IN;

// In a test's row: whether it is taken, its month, then its deficits.
pub const TEST_DEFICITS_IN: usize = 2;

// Lays a row into the cells: nothing else changes a part of them.
pub fn lay(cells: &mut Cells, place: usize, row: &[u64])
    requires row_bound { place + length row.now ≤ cell_count }
    ensures { Laid place row.now cells.old cells.new }
{
    cells[place..place + row.len()].copy_from_slice(row);
}

impl YearCells {
    // No year yet.
    pub fn new() -> YearCells
        ensures { year_in result.cells ≡ new_year }
    {
        YearCells {
            cells: [0u64; CELLS],
        }
    }
}

// The reads take any cells, sound or not: a `YearCells` would ask more of who calls `question_list::is_open` or `settle_facts::look`.
pub fn opened(year: &Cells) -> bool
    ensures { result ≡ (year_in year.now).opened }
{
    year[OPENED_PLACE] != 0
}

// Is an event, test or close accepted?
pub fn started(year: &Cells) -> bool
    ensures { result ≡ (year_in year.now).started }
{
    year[STARTED_PLACE] != 0
}

// How many months are closed.
pub fn closed(year: &Cells) -> u64
    ensures { result ≡ (year_in year.now).closed }
{
    year[CLOSED_PLACE]
}

// How many events are accepted.
pub fn events_accepted(year: &Cells) -> usize
    ensures { result ≡ (year_in year.now).accepted }
{
    year[ACCEPTED_PLACE] as usize
}

pub fn registration_at(year: &Cells, i: usize) -> Registration
    requires { i < registrations }
    ensures { result ≡ registration (year_in year.now).terms i }
{
    let p = REGISTRATIONS_PLACE + REGISTRATION_WIDTH * i;
    let committed = Nominated(year[p + 5]);
    Registration {
        known: year[p + 0] != 0,
        seller: year[p + 1],
        area: year[p + 2],
        zone: year[p + 3],
        product: year[p + 4],
        committed,
        rate: year[p + 6],
    }
}

// What a registration's clearings come to.
pub fn clearings_at(year: &Cells, i: usize) -> Clearings
    requires { i < registrations }
    ensures { result ≡ clearings_of (year_in year.now) i }
{
    let p = CLEARINGS_PLACE + CLEARING_WIDTH * i;
    Clearings {
        count: year[p + 0],
        value: year[p + 1],
        kw: year[p + 2],
    }
}

pub fn obligation_of(year: &Cells, j: usize) -> u64
    requires { j < lses }
    ensures { result ≡ obligation (year_in year.now).terms j }
{
    year[OBLIGATIONS_PLACE + j]
}

// Does an event list a registration?
pub fn listed_in(year: &Cells, e: usize, i: usize) -> bool
    requires e_lt_event_limit { e < event_limit }
    requires i_lt_registrations { i < registrations }
    ensures { result ≡ listed (get_or (year_in year.now).events e no_event).listing i }
{
    let p = EVENTS_PLACE + EVENT_WIDTH * e;
    year[p + (EVENT_LISTING_IN + i)] != 0
}
