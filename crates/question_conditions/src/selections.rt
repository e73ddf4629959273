// Is one registration among those that are meant?
ghost use Rattle.std.specs.Prelude.{◌≡◌, ◌<◌};
ghost use Rattle.limits.specs.Limits.{registrations};
ghost use Rattle.owed.specs.Facts.{facts_of};
ghost use Rattle.owed.specs.Owed.{dispatched};
ghost use Rattle.year_cells.specs.Layout.{year_in};
ghost use Rattle.question_conditions.specs.Selects.{selects};

use crate::Selection;
use crate::conditions::in_group;
use crate::test_entries::{has_failed, is_entry, is_retested};
use year_cells::YearCells;

// Does an accepted event list the registration?
fn is_dispatched(year: &YearCells, i: usize) -> bool
    requires i_lt_registrations { i < registrations }
    ensures { result ≡ dispatched (facts_of (year_in year.now.cells)) i }
{
    (0..year_cells::events_accepted(&year.cells)).any(|e| year_cells::listed_in(&year.cells, e, i))
}

// Is a registration selected?
pub fn is_selected(year: &YearCells, i: usize, selection: Selection) -> bool
    requires i_lt_registrations { i < registrations }
    ensures { result ≡ selects (year_in year.now.cells) selection i }
{
    let r = year_cells::registration_at(&year.cells, i);
    match selection {
        Selection::Known => r.known,
        Selection::Undispatched(zone, product) => in_group(r, zone, product)
            && !is_dispatched(year, i),
        Selection::Tested(group, seller) => is_entry(year, i, group, seller),
        Selection::Failed(group, seller) => has_failed(year, i, group, seller),
        Selection::Retested(group, seller) => is_retested(year, i, group, seller),
    }
}
