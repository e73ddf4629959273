// An event's charges, from what the working table has of its entries: no look at one.
#![tactic(auto)]

ghost use Rattle.std.specs.Prelude.{◌≡◌, ◌+◌, ◌-◌, ◌≤◌, ◌<◌};
ghost use Rattle.limits.specs.Limits.{registrations, event_limit, close_limit};
ghost use Rattle.ids.specs.Ids.{sum_to};
ghost use Rattle.settle_facts.specs.CellFacts.{facts};
ghost use Rattle.owed.specs.Owed.{charge};
ghost use Rattle.settle_table.specs.Places.{spent_row, credit_row};
ghost use Rattle.settle_table.specs.Rows.{Aside};
ghost use Rattle.settle_charges.specs.Charging.{Given, Billed};

use limits::REGISTRATIONS;
use settle_table::Work;
use year_cells::YearCells;

mod due_cents;
mod prices;

pub use prices::line_at;

// Event ev's charges to date at month k, added to what is spent of the caps and to the sellers' compliance; their sum. A registration
// without a share of a shortfall of its seller's is not charged.
pub fn charge(year: &YearCells, work: &mut Work, ev: usize, k: u64) -> u64
    requires ev_lt_event_limit { (ev < event_limit) × (1 ≤ k) × (k ≤ close_limit) }
    requires given { Given (facts year.now.cells) ev work.old }
    requires billed_2 { Billed (facts year.now.cells) k ev work.old }
    ensures billed { Billed (facts year.now.cells) k (ev + 1) work.new }
    ensures charges { result ≡ sum_to registrations (charge (facts year.now.cells) k ev) }
    ensures aside { Aside spent_row (credit_row - spent_row) work.old work.new }
{
    let peak = settle_facts::one_or_three(&year.cells, ev);
    let month = settle_facts::month_of(&year.cells, ev);
    let days = settle_facts::days_to(year, k);
    let mut all: u64 = 0;
    for i in 0..REGISTRATIONS {
        let u = settle_table::get(work, settle_table::U, i);
        let off = settle_table::get(work, settle_table::OFF_U, i);
        // `|`, not `||`: both are read already, and as two tests the proof would say each branch twice.
        if (u != 0) | (off != 0) {
            let line = prices::line_at(work, i);
            let daily = prices::daily_of(peak, line);
            let due = due_cents::cents(line.product, month, k, days, daily);
            settle_table::add_at(work, settle_table::SPENT, i, daily);
            settle_table::add_at(work, settle_table::COMPLIANCE, line.seller, due);
            all += due;
        }
    }
    all
}
