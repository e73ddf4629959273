// Pass 1 over the events' entries: how often events list each registration, and whether any does.
#![tactic(auto)]

ghost use Rattle.std.specs.Prelude.{◌+◌, ◌-◌, ◌<◌};
ghost use Rattle.limits.specs.Limits.{event_limit};
ghost use Rattle.settle_facts.specs.CellFacts.{facts};
ghost use Rattle.settle_table.specs.Places.{dispatch_count_row, spent_row};
ghost use Rattle.settle_table.specs.Rows.{Aside, Row, none};
ghost use Rattle.settle_dispatch.specs.Counting.{DispatchCounts, DispatchMarks, Counting};

use limits::REGISTRATIONS;
use settle_table::Work;
use year_cells::YearCells;

// Counts one event's entries, after those of the events before it.
fn count_event(year: &YearCells, work: &mut Work, ev: usize)
    requires ev_lt_event_limit { ev < event_limit }
    requires counting { Counting (facts year.now.cells) ev work.old }
    ensures counted { Counting (facts year.now.cells) (ev + 1) work.new }
    ensures aside { Aside dispatch_count_row (spent_row - dispatch_count_row) work.old work.new }
{
    let one = u64::from(settle_facts::one_or_three(&year.cells, ev));
    for i in 0..REGISTRATIONS {
        if settle_facts::look(&year.cells, ev, i).is_ok() {
            settle_table::put(work, settle_table::DISPATCHED, i, 1);
            settle_table::add_at(work, settle_table::DISPATCH_COUNT, i, one);
        }
    }
}

// Counts the entries of all events, later ones too: n and whether a registration is dispatched do not depend on which event asks.
pub fn count(year: &YearCells, work: &mut Work)
    requires row { Row work.old dispatch_count_row (spent_row - dispatch_count_row) none }
    ensures dispatch_count { DispatchCounts (facts year.now.cells) work.new }
    ensures dispatched { DispatchMarks (facts year.now.cells) work.new }
    ensures aside { Aside dispatch_count_row (spent_row - dispatch_count_row) work.old work.new }
{
    let accepted = year_cells::events_accepted(&year.cells);
    for ev in 0..accepted {
        count_event(year, work, ev);
    }
}
