// A month closed: its statement issued, and the amounts kept.
ghost use Rattle.std.specs.Prelude.{◌≡◌, ◌+◌, ◌≤◌, ◌<◌, length};
ghost use Rattle.limits.specs.Limits.{close_limit, statement_limit};
ghost use Rattle.year_cells.specs.Layout.{year_in};
ghost use Rattle.book_accept.specs.Closing.{closing, year_closed, buffer_closed};

use year_cells::YearCells;

// Closes the month; its statement goes to the front of the buffer. Answers the statement's bytes.
pub fn close_month(year: &mut YearCells, month: u64, buffer: &mut [u8]) -> usize
    requires year_bound { (year_in year.old.cells).closed < close_limit }
    requires month_value { month ≡ (year_in year.old.cells).closed + 1 }
    requires statement_limit_in_bounds { statement_limit ≤ length buffer.old }
    ensures equals { year_in year.new.cells ≡ year_closed (year_in year.old.cells) month }
    ensures leaves { buffer.new ≡ buffer_closed (year_in year.old.cells) month buffer.old }
    ensures writes { result ≡ length (closing (year_in year.old.cells) month) }
{
    let terms = year_copies::terms_of(&year.cells);
    let registrations = terms.registrations;
    let owed = settle_closing::amounts_of(registrations, year, month);
    let billed = year_copies::billed_of(&year.cells);
    let written = statement::write_statement(terms, month, owed, billed, buffer);
    year_steps::add_close(year, owed);
    written
}
