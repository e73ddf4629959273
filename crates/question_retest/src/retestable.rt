// May a seller retest: question 20.
ghost use Rattle.std.specs.Prelude.{◌≡◌, ◌≤◌};
ghost use Rattle.limits.specs.Limits.{nominated_sum};
ghost use Rattle.owed.specs.Retests.{below_quarter};
ghost use Rattle.year_cells.specs.Layout.{year_in};
ghost use Rattle.record_heads.specs.Within.{GroupWithin};
ghost use Rattle.question_list.specs.Questions.{may_retest};

use question_conditions::Selection;
use question_listings::{any_selected, committed_kw};
use record_heads::RetestHead;
use units::Nominated;
use year_cells::YearCells;

// Are failed kW × 4 between 1 and one less than tested kW?
fn below_quarter(failed: Nominated, tested: Nominated) -> bool
    requires { failed.0 ≤ nominated_sum }
    ensures { result ≡ below_quarter failed.0 tested.0 }
{
    let four = failed.0 * 4;
    0 < four && four < tested.0
}

// Question 20: was there a test, has the seller had no retest of it, and did it fail with less than a quarter, and some?
pub fn may_retest(year: &YearCells, t: RetestHead) -> bool
    requires group_within { GroupWithin t.zone t.product }
    ensures { result ≡ may_retest (year_in year.now.cells) t }
{
    let group = year::group_of(t.zone, t.product);
    if !year_tested::test_taken(&year.cells, group as usize) {
        return false;
    }
    if any_selected(year, Selection::Retested(group, t.seller)) {
        return false;
    }
    let failed = committed_kw(year, Selection::Failed(group, t.seller));
    let tested = committed_kw(year, Selection::Tested(group, t.seller));
    below_quarter(failed, tested)
}
