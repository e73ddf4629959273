// The questions that records of several kinds are asked: 6 and 8, and of 11 whether the month has begun, and a test's.
#![tactic(auto)]

ghost use Rattle.std.specs.Prelude.{◌≡◌};
ghost use Rattle.year_cells.specs.Layout.{year_in};
ghost use Rattle.refusals.specs.Numbers.{answered};
ghost use Rattle.question_list.specs.Questions.{is_open, month_begun, may_test, has_parties, open_number};

use limits::CLOSE_LIMIT;
use question_conditions::Selection;
use question_listings::{any_lse, any_selected};
use refusals::{Refusal, ask};
use year_cells::{Cells, YearCells};

// Question 6 of any record but an opening: is there a year, with month 15 not closed?
pub fn is_open(year: &Cells) -> bool
    ensures { result ≡ is_open (year_in year.now) }
{
    year_cells::opened(year) && year_cells::closed(year) < CLOSE_LIMIT
}

// Question 8: are there a registration and an LSE?
fn has_parties(year: &YearCells) -> bool
    ensures { result ≡ has_parties (year_in year.now.cells).terms }
{
    any_selected(year, Selection::Known) && any_lse(year)
}

// Questions 6 and 8, which are put to an event, a test, a retest and a close.
pub fn ask_open(year: &YearCells) -> Result<(), Refusal>
    ensures { answered result ≡ open_number (year_in year.now.cells) }
{
    ask(is_open(&year.cells), Refusal::Opening)?;
    ask(has_parties(year), Refusal::NoParties)
}

// Has the month begun? Question 11 of an event, a test and a retest asks it first.
pub fn month_begun(year: &YearCells, month: u64) -> bool
    ensures { result ≡ month_begun (year_in year.now.cells).closed month }
{
    let closed = year_cells::closed(&year.cells);
    month <= closed + 1
}

// Question 11 of a test: has the month begun, and may the product be tested in it?
pub fn may_test(year: &YearCells, product: u64, month: u64) -> bool
    ensures { result ≡ may_test (year_in year.now.cells).closed product month }
{
    month_begun(year, month) && calendar::testable(product, month)
}
