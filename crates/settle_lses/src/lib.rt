// What the LSEs are credited: all charges to date less all credits, allotted by obligation.
#![tactic(auto)]

ghost use Rattle.std.specs.Prelude.{◌≡◌, ◌*◌, ◌<◌, ◌^◌};
ghost use Rattle.ids.specs.Ids.{sum_to};
ghost use Rattle.limits.specs.Limits.{lses};
ghost use Rattle.year.specs.Year.{obligation};
ghost use Rattle.settle_facts.specs.CellFacts.{facts};
ghost use Rattle.owed.specs.Divisions.{lse_divisions};
ghost use Rattle.settle_table.specs.Places.{lse_row};
ghost use Rattle.settle_table.specs.Rows.{Aside, Row, none};
ghost use Rattle.settle_lses.specs.Lses.{net, Covered, Credited};

use allotment::Allotment;
use limits::{LSES, SELLERS};
use settle_table::Work;
use year_cells::YearCells;

// All charges less all credits.
#[tactic(auto, unfolding(crate::specs::Lses::net))]
fn net_of(work: &Work) -> u64
    requires { Covered work.now }
    ensures { result ≡ net work.now }
{
    let compliance = settle_table::sum(work, settle_table::COMPLIANCE, SELLERS);
    let test = settle_table::sum(work, settle_table::TEST, SELLERS);
    let credit = settle_table::sum(work, settle_table::CREDIT, SELLERS);
    compliance + test - credit
}

// What is left after the credits is allotted to the LSEs. Who has no obligation is not known, and no party. Tells the divisions.
pub fn credit_lses(year: &YearCells, work: &mut Work) -> u64
    requires covered { Covered work.old }
    requires year_bound { net work.old * sum_to lses (obligation (facts year.now.cells).terms) < 2 ^ 64 }
    requires empty { Row work.old lse_row lses none }
    ensures credited { Credited (facts year.now.cells) work.old work.new }
    ensures divisions { result ≡ lse_divisions (facts year.now.cells) }
    ensures aside { Aside lse_row lses work.old work.new }
{
    let obligations = settle_table::sum(&year.cells, year_cells::OBLIGATIONS_PLACE, LSES);
    let mut allotment = Allotment::new(net_of(work), obligations);
    for j in 0..LSES {
        let weight = year_cells::obligation_of(&year.cells, j);
        let known = weight != 0;
        if !known {
            continue;
        }
        let share = allotment.share(weight);
        settle_table::put(work, settle_table::LSE, j, share.value);
        allotment = share.next;
    }
    allotment.divisions
}
