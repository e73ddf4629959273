// What a registration with a rate of its own adds to its area's sums in the working table.
ghost use Rattle.std.specs.Prelude.{cond, ◌≡◌, ◌+◌, ◌-◌, ◌<◌, ltb};
ghost use Rattle.limits.specs.Limits.{registrations};
ghost use Rattle.year.specs.Year.{registration};
ghost use Rattle.year_cells.specs.Layout.{year_in};
ghost use Rattle.owed.specs.Owed.{own};
ghost use Rattle.settle_facts.specs.CellFacts.{facts};
ghost use Rattle.settle_table.specs.Places.{area_kw_row, area_rate_row};
ghost use Rattle.settle_table.specs.Rows.{Aside};
ghost use Rattle.settle_rates.specs.AreaSums.{AreaSums};

use settle_table::Work;
use units::Nominated;
use year::Registration;
use year_cells::YearCells;

// The kilowatts that count in an area's average: all that is committed, at a rate of 0 none.
fn averaged_kw(committed: Nominated, own: u64) -> Nominated
    ensures { result.0 ≡ cond (ltb 0 own) committed.0 0 }
{
    if own == 0 {
        return Nominated(0);
    }
    committed
}

// A registration's kilowatts and what they are worth go to its area's sums. Answers its own rate.
pub fn add_to_area(year: &YearCells, work: &mut Work, i: usize, r: Registration) -> u64
    requires i_lt_registrations { (i < registrations) × (r ≡ registration (year_in year.now.cells).terms i) }
    requires sums_before { AreaSums (facts year.now.cells) i work.old }
    ensures own { result ≡ own (facts year.now.cells) i }
    ensures sums { AreaSums (facts year.now.cells) (i + 1) work.new }
    ensures aside { Aside area_kw_row (area_rate_row - area_kw_row) work.old work.new }
{
    let own = crate::own_rates::own_rate(year, i, r);
    let kw = averaged_kw(r.committed, own);
    let worth = kw.0 * own;
    let area = r.area as usize;
    settle_table::add_at(work, settle_table::AREA_KW, area, kw.0);
    settle_table::add_at(work, settle_table::AREA_WORTH, area, worth);
    own
}
