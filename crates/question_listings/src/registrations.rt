// What is asked of the registrations and LSEs at large.
ghost use Rattle.std.specs.Prelude.{◌≡◌, ltb, ◌<◌};
ghost use Rattle.ids.specs.Ids.{any_to, only};
ghost use Rattle.limits.specs.Limits.{registrations};
ghost use Rattle.year.specs.Year.{committed, obligation, lse_count};
ghost use Rattle.year_cells.specs.Layout.{year_in};
ghost use Rattle.question_conditions.specs.Selects.{selects};
ghost use Rattle.question_listings.specs.Asked.{selected_kw};

use limits::{LSES, REGISTRATIONS};
use question_conditions::{Selection, is_selected};
use units::{Kilowatts, Nominated};
use year_cells::YearCells;

// Is there a registration that is selected?
pub fn any_selected(year: &YearCells, selection: Selection) -> bool
    ensures { result ≡ any_to registrations (selects (year_in year.now.cells) selection) }
{
    (0..REGISTRATIONS).any(|i| is_selected(year, i, selection))
}

// What a registration commits, if it is selected, else 0.
fn committed_by(year: &YearCells, i: usize, selection: Selection) -> u64
    requires i_lt_registrations { i < registrations }
    ensures { result ≡ (let y = year_in year.now.cells in only (selects y selection) (committed y.terms) i) }
{
    let r = year_cells::registration_at(&year.cells, i);
    let committed = r.committed;
    if is_selected(year, i, selection) {
        committed.0
    } else {
        0
    }
}

// What the selected registrations commit, together.
pub fn committed_kw(year: &YearCells, selection: Selection) -> Nominated
    ensures { result.0 ≡ selected_kw (year_in year.now.cells) selection }
{
    let sum = (0..REGISTRATIONS)
        .map(|i| committed_by(year, i, selection))
        .sum();
    Nominated::sum(sum)
}

// Is there an LSE?
pub fn any_lse(year: &YearCells) -> bool
    ensures { result ≡ (let T = (year_in year.now.cells).terms in any_to (lse_count T) (λ j. ltb 0 (obligation T j))) }
{
    (0..LSES).any(|j| 0 < year_cells::obligation_of(&year.cells, j))
}
