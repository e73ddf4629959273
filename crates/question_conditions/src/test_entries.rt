// A registration's entry in the test of a group: is it a seller's, did it fail, is it retested?
ghost use Rattle.std.specs.Prelude.{◌≡◌, ◌<◌};
ghost use Rattle.limits.specs.Limits.{registrations};
ghost use Rattle.owed.specs.Facts.{facts_of};
ghost use Rattle.owed.specs.Retests.{test_entry, failed};
ghost use Rattle.year_cells.specs.Layout.{year_in};
ghost use Rattle.question_conditions.specs.Selects.{retested};

use year_cells::YearCells;

// Has the test of a group an entry of the registration, and is it the seller's?
pub fn is_entry(year: &YearCells, i: usize, group: u64, seller: u64) -> bool
    requires i_lt_registrations { i < registrations }
    ensures { result ≡ test_entry (facts_of (year_in year.now.cells)) group seller i }
{
    let r = year_cells::registration_at(&year.cells, i);
    year_tested::tested_in(year, group, i) && r.seller == seller
}

// Has it such an entry, with a reduction below the registration's commitment?
pub fn has_failed(year: &YearCells, i: usize, group: u64, seller: u64) -> bool
    requires i_lt_registrations { i < registrations }
    ensures { result ≡ failed (facts_of (year_in year.now.cells)) group seller i }
{
    let r = year_cells::registration_at(&year.cells, i);
    let committed = r.committed;
    is_entry(year, i, group, seller) && year_tested::first_in(year, group, i) < committed.0
}

// Has it such an entry, and is the registration retested?
pub fn is_retested(year: &YearCells, i: usize, group: u64, seller: u64) -> bool
    requires i_lt_registrations { i < registrations }
    ensures { result ≡ retested (facts_of (year_in year.now.cells)) group seller i }
{
    let retest = year_tested::retest_at(&year.cells, i);
    is_entry(year, i, group, seller) && retest.taken
}
