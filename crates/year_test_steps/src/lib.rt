// The year after a test or a retest, made where it lies: their entries are tables by registration, one of all tests and one of all retests.
#![tactic(auto)]

ghost use Rattle.std.specs.Prelude.{◌≡◌, true, false, ◌<◌, get_or};
ghost use Rattle.ids.specs.Ids.{at};
ghost use Rattle.limits.specs.Limits.{test_groups};
ghost use Rattle.year.specs.Year.{no_test};
ghost use Rattle.year.specs.Sound.{SoundListing, SoundTest};
ghost use Rattle.year_cells.specs.Layout.{listing_at, year_in};
ghost use Rattle.year_test_steps.specs.Tests.{taken_test, after_test, after_retest};

use crate::merging::enter;
use year_cells::{
    DEFICITS_IN, LISTING_WIDTH, RETEST_ENTRIES_PLACE, SECOND_IN, STARTED_PLACE, TEST_DEFICITS_IN,
    TEST_ENTRIES_PLACE, TEST_WIDTH, TESTS_PLACE, YearCells, lay,
};

mod merging;

// Adds the test of a group that has none; its listing is a row by id: marks, reductions, deficits, then what no test has.
pub fn add_test(year: &mut YearCells, group: usize, month: u64, listing: &[u64; LISTING_WIDTH])
    requires group_lt_test_groups { group < test_groups }
    requires no_test_value { (get_or (year_in year.old.cells).tests group no_test).taken ≡ false }
    requires sound_test { SoundTest (year_in year.old.cells).terms group (taken_test month (listing_at (at listing.now))) }
    ensures { year_in year.new.cells ≡ after_test year.old.cells group month listing.now }
{
    lay(&mut year.cells, STARTED_PLACE, &[1]);
    lay(
        &mut year.cells,
        TESTS_PLACE + TEST_WIDTH * group,
        &[1, month],
    );
    lay(
        &mut year.cells,
        TESTS_PLACE + TEST_WIDTH * group + TEST_DEFICITS_IN,
        &listing[DEFICITS_IN..SECOND_IN],
    );
    enter(&mut year.cells, TEST_ENTRIES_PLACE, listing);
}

// Adds a retest; its listing is such a row without deficits.
pub fn add_retest(year: &mut YearCells, listing: &[u64; LISTING_WIDTH])
    requires year_value { (year_in year.old.cells).started ≡ true }
    requires sound_listing { SoundListing (listing_at (at listing.now)) }
    ensures { year_in year.new.cells ≡ after_retest year.old.cells listing.now }
{
    enter(&mut year.cells, RETEST_ENTRIES_PLACE, listing);
}
