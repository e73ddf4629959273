// What the year's cells hold of the tests and retests: whether and when a group was tested, and each registration's entry.
#![tactic(auto)]

ghost use Rattle.std.specs.Prelude.{◌≡◌, ◌<◌, get_or};
ghost use Rattle.limits.specs.Limits.{registrations, test_groups};
ghost use Rattle.year.specs.Year.{no_test, retest_of, listed, reduction};
ghost use Rattle.year_cells.specs.Layout.{year_in};

use year::Retest;
use year_cells::{
    Cells, REDUCTIONS_IN, RETEST_ENTRIES_PLACE, TEST_ENTRIES_PLACE, TEST_WIDTH, TESTS_PLACE,
    YearCells,
};

// Is the test of a group taken?
pub fn test_taken(year: &Cells, group: usize) -> bool
    requires { group < test_groups }
    ensures { result ≡ (get_or (year_in year.now).tests group no_test).taken }
{
    let p = TESTS_PLACE + TEST_WIDTH * group;
    year[p + 0] != 0
}

// The month of a group's test, 0 where it has none: no Option, as `year.Year.no_test` has it (what may not change: its clause).
pub fn test_month(year: &Cells, group: usize) -> u64
    requires { group < test_groups }
    ensures { result ≡ (get_or (year_in year.now).tests group no_test).month }
{
    let p = TESTS_PLACE + TEST_WIDTH * group;
    year[p + 1]
}

// Does the test of a group list a registration?
pub fn tested_in(year: &YearCells, group: u64, i: usize) -> bool
    requires i_lt_registrations { i < registrations }
    ensures { result ≡ listed (get_or (year_in year.now.cells).tests group no_test).listing i }
{
    let r = year_cells::registration_at(&year.cells, i);
    let own = year::group_of(r.zone, r.product);
    year.cells[TEST_ENTRIES_PLACE + i] != 0 && own == group
}

// With which reduction, 0 where it does not, as `year.Year.reduction` has it (what may not change: its clause).
pub fn first_in(year: &YearCells, group: u64, i: usize) -> u64
    requires i_lt_registrations { i < registrations }
    ensures { result ≡ reduction (get_or (year_in year.now.cells).tests group no_test).listing i }
{
    if tested_in(year, group, i) {
        year.cells[TEST_ENTRIES_PLACE + (REDUCTIONS_IN + i)]
    } else {
        0
    }
}

// A registration's retest.
pub fn retest_at(year: &Cells, i: usize) -> Retest
    requires { i < registrations }
    ensures { result ≡ retest_of (year_in year.now) i }
{
    Retest {
        taken: year[RETEST_ENTRIES_PLACE + i] != 0,
        reduction: year[RETEST_ENTRIES_PLACE + (REDUCTIONS_IN + i)],
    }
}
