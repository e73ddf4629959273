// The closing's passes over the accepted events: the dispatch counts first, then event by event in order of acceptance.
ghost use Rattle.std.specs.Prelude.{◌+◌, ◌≤◌, ◌<◌};
ghost use Rattle.limits.specs.Limits.{registrations, sellers, event_limit, close_limit};
ghost use Rattle.settle_facts.specs.CellFacts.{facts};
ghost use Rattle.owed.specs.Owed.{compliance, credit};
ghost use Rattle.settle_table.specs.Columns.{Columns};
ghost use Rattle.settle_table.specs.Places.{dispatch_count_row, compliance_row, credit_row, passed_places};
ghost use Rattle.settle_table.specs.Rows.{Aside, Row, none};
ghost use Rattle.settle_dispatch.specs.Counting.{DispatchMarks};
ghost use Rattle.settle_closing.specs.Passes.{Run};

use settle_table::Work;
use year_cells::YearCells;

// One event: its sums by seller, the shares of its entries, what is measured off-peak, its charges, its credits.
fn bill_event(year: &YearCells, work: &mut Work, ev: usize, k: u64)
    requires ev_lt_event_limit { (ev < event_limit) × (1 ≤ k) × (k ≤ close_limit) }
    requires before { Run (facts year.now.cells) k ev work.old }
    ensures run { Run (facts year.now.cells) k (ev + 1) work.new }
    ensures aside { Aside dispatch_count_row passed_places work.old work.new }
{
    settle_shortfalls::weigh(year, work, ev);
    settle_shortfalls::share(year, work, ev);
    settle_shortfalls::measure(year, work, ev);
    let charges = settle_charges::charge(year, work, ev, k);
    settle_credits::credit(year, work, ev, k, charges);
}

// The sellers' compliance charges and excess credits to date at month k, and which registrations are dispatched.
pub fn bill_events(year: &YearCells, work: &mut Work, k: u64)
    requires le_k { (1 ≤ k) × (k ≤ close_limit) }
    requires columns { Columns (facts year.now.cells) registrations work.old }
    requires row { Row work.old dispatch_count_row 224 none }
    ensures compliance { Row work.new compliance_row sellers (compliance (facts year.now.cells) k) }
    ensures credit { Row work.new credit_row sellers (credit (facts year.now.cells) k) }
    ensures dispatched { DispatchMarks (facts year.now.cells) work.new }
    ensures aside { Aside dispatch_count_row passed_places work.old work.new }
{
    settle_dispatch::count(year, work);
    for ev in 0..year_cells::events_accepted(&year.cells) {
        bill_event(year, work, ev, k);
    }
}
