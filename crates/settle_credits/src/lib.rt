// An event's excess credits, from the shares e that the working table keeps of its entries: no look at one.
#![tactic(auto)]

ghost use Rattle.std.specs.Prelude.{◌≡◌, ◌+◌, ◌*◌, ◌/◌, ◌≤◌, ◌<◌};
ghost use Rattle.limits.specs.Limits.{registrations, sellers, event_limit, close_limit, nominated_limit, rate_limit};
ghost use Rattle.settle_charges.specs.Charging.{Given};
ghost use Rattle.ids.specs.Ids.{sum_to};
ghost use Rattle.settle_facts.specs.CellFacts.{facts};
ghost use Rattle.owed.specs.Divisions.{credit_divisions};
ghost use Rattle.owed.specs.Owed.{charge};
ghost use Rattle.settle_table.specs.Places.{credit_row};
ghost use Rattle.settle_table.specs.Rows.{Aside, Row};
ghost use Rattle.settle_credits.specs.Crediting.{credit_by};

use allotment::Allotment;
use limits::REGISTRATIONS;
use settle_table::Work;
use units::Nominated;
use year_cells::YearCells;

// The most that e kilowatts are credited, the bracket rounded first.
fn limit(e: Nominated, rate: u64, days: u64) -> u64
    requires e_le_nominated_limit { e.0 ≤ nominated_limit }
    requires rate_le_rate_limit { rate ≤ rate_limit }
    requires days_bound { days ≤ 366 }
    ensures { result ≡ e.0 * rate / 5 * days / 1000 }
{
    e.0 * rate / 5 * days / 1000
}

// Event ev's charges to date at month k, allotted over its entries by e: each seller's credits with those of its entries. Tells the divisions.
pub fn credit(year: &YearCells, work: &mut Work, ev: usize, k: u64, charges: u64) -> u64
    requires ev_lt_event_limit { (ev < event_limit) × (1 ≤ k) × (k ≤ close_limit) }
    requires given { Given (facts year.now.cells) ev work.old }
    requires row { Row work.old credit_row sellers (credit_by (facts year.now.cells) k ev) }
    requires charges_value { charges ≡ sum_to registrations (charge (facts year.now.cells) k ev) }
    ensures credited { Row work.new credit_row sellers (credit_by (facts year.now.cells) k (ev + 1)) }
    ensures divisions { result ≡ credit_divisions (facts year.now.cells) ev }
    ensures aside { Aside credit_row sellers work.old work.new }
{
    let days = settle_facts::days_to(year, k);
    let total = settle_table::sum(work, settle_table::E, REGISTRATIONS);
    let mut allotment = Allotment::new(charges, total);
    for i in 0..REGISTRATIONS {
        let listed = settle_table::get(work, settle_table::LISTED, i) != 0;
        if !listed {
            continue;
        }
        let line = settle_charges::line_at(work, i);
        let share = allotment.share(line.e.0);
        let most = limit(line.e, line.rate, days);
        let credit = share.value.min(most);
        settle_table::add_at(work, settle_table::CREDIT, line.seller, credit);
        allotment = share.next;
    }
    allotment.divisions
}
