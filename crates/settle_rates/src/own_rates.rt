// A registration's own rate, from its clearings or its field.
ghost use Rattle.std.specs.Prelude.{◌≡◌, ◌<◌};
ghost use Rattle.limits.specs.Limits.{registrations};
ghost use Rattle.year.specs.Year.{registration};
ghost use Rattle.year_cells.specs.Layout.{year_in};
ghost use Rattle.owed.specs.Owed.{own};
ghost use Rattle.settle_facts.specs.CellFacts.{facts};

use year::Registration;
use year_cells::YearCells;

// A registration's own rate: what its clearings say, where it has any, else its field; 0 where it is not known.
#[tactic(auto, unfolding(owed::specs::Owed::own, year::specs::Year::known, year::specs::Year::field_rate))]
pub fn own_rate(year: &YearCells, i: usize, r: Registration) -> u64
    requires i_lt_registrations { i < registrations }
    requires r_value { r ≡ registration (year_in year.now.cells).terms i }
    ensures { result ≡ own (facts year.now.cells) i }
{
    if !r.known {
        return 0;
    }
    let clearings = year_cells::clearings_at(&year.cells, i);
    if clearings.count == 0 {
        return r.rate;
    }
    clearings.value / clearings.kw
}
