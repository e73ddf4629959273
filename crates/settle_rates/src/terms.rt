// Registrations entered into the working table one by one, with what each adds to its area's sums.
ghost use Rattle.std.specs.Prelude.{◌+◌};
ghost use Rattle.settle_rates.specs.Entering.{Begun, Next};

use crate::area_sums::add_to_area;
use settle_table::Work;
use year::Registration;
use year_cells::YearCells;

// A registration's terms go into the table, with its own rate and the cap by that: the rate for all that it committed.
pub fn enter(year: &YearCells, work: &mut Work, i: usize, r: Registration)
    requires { Next year.now.cells i r work.old }
    ensures { Begun year.now.cells (i + 1) work.new }
{
    let own = add_to_area(year, work, i, r);
    let committed = r.committed;
    let all = settle_facts::unforced(year, committed);
    let cap = all.0 * own;
    let group = year::group_of(r.zone, r.product);
    settle_table::put(work, settle_table::SELLER, i, r.seller);
    settle_table::put(work, settle_table::PRODUCT, i, r.product);
    settle_table::put(work, settle_table::COMMITTED, i, committed.0);
    settle_table::put(work, settle_table::RATE, i, own);
    settle_table::put(work, settle_table::CAP, i, cap);
    settle_table::put(work, settle_table::GROUP, i, group);
    settle_table::put(work, settle_table::AREA, i, r.area);
}
