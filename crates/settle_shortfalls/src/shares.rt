// Pass 3 over an event's entries: u and e, kept in the working table for the charges and the credits, and second reductions for what is measured off-peak.
ghost use Rattle.std.specs.Prelude.{◌<◌};
ghost use Rattle.limits.specs.Limits.{registrations, event_limit};
ghost use Rattle.settle_facts.specs.CellFacts.{facts};
ghost use Rattle.settle_table.specs.Columns.{Columns};
ghost use Rattle.settle_table.specs.Places.{short_row, shared_places};
ghost use Rattle.settle_table.specs.Rows.{Aside};
ghost use Rattle.settle_shortfalls.specs.Weighing.{Ready};
ghost use Rattle.settle_shortfalls.specs.Sharing.{Shares, Divided};

use limits::REGISTRATIONS;
use settle_table::Work;
use units::{Nominated, Unforced};
use year_cells::YearCells;

// Each entry's shares of its seller's shortfall and excess; the table then tells each seller's divisions.
pub fn share(year: &YearCells, work: &mut Work, ev: usize)
    requires ev_lt_event_limit { ev < event_limit }
    requires columns { Columns (facts year.now.cells) registrations work.old }
    requires ready { Ready (facts year.now.cells) ev work.old }
    ensures shares { Shares (facts year.now.cells) ev work.new }
    ensures divisions { Divided (facts year.now.cells) ev work.new }
    ensures aside { Aside short_row shared_places work.old work.new }
{
    for i in 0..REGISTRATIONS {
        if let Ok(x) = crate::entry_at(year, work, ev, i) {
            let first = x.first;
            let u = Unforced(settle_table::share(
                work,
                settle_table::SHORT,
                first.seller,
                first.short.0,
            ));
            let e = Nominated(settle_table::share(
                work,
                settle_table::OVER,
                first.seller,
                first.over.0,
            ));
            settle_table::put(work, settle_table::U, i, u.0);
            settle_table::put(work, settle_table::E, i, e.0);
            settle_table::put(work, settle_table::LISTED, i, 1);
            settle_table::put(work, settle_table::SECOND, i, x.second.0);
        }
    }
}
