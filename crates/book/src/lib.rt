// Taking a record: the questions, then what an accepted one does.
#![tactic(auto)]

ghost use Rattle.std.specs.Prelude.{◌≡◌};
ghost use Rattle.year.specs.Year.{new_year};
ghost use Rattle.year_cells.specs.Layout.{year_in};
ghost use Rattle.refusals.specs.Numbers.{number_of};
ghost use Rattle.book.specs.Takes.{Takes, used_of, written_of};

use book_accept::accept;
use question_number::ask;
use refusals::Refused;
use year_cells::{LISTING_WIDTH, YearCells};

// What taking a record did: the bytes consumed, and the bytes of the statement that it left in the buffer, 0 where it
// left none.
#[derive(Clone, Copy)]
pub struct Posted {
    pub used: usize,
    pub written: usize,
}

// The number of a call's answer: 0, or that of the question that failed.
pub fn number_of(answer: Result<Posted, Refused>) -> u64
    ensures { result ≡ number_of answer }
{
    match answer {
        Ok(_) => 0,
        Err(refused) => refused.refusal.number(),
    }
}

// The bytes that a call consumed, by its answer.
pub fn used_of(answer: Result<Posted, Refused>) -> usize
    ensures { result ≡ used_of answer }
{
    match answer {
        Ok(posted) => posted.used,
        Err(refused) => refused.used,
    }
}

// The bytes of the statement that a call left, by its answer.
pub fn written_of(answer: Result<Posted, Refused>) -> usize
    ensures { result ≡ written_of answer }
{
    match answer {
        Ok(posted) => posted.written,
        Err(_) => 0,
    }
}

// A new book, which has no year.
pub fn new_book() -> YearCells
    ensures { year_in result.cells ≡ new_year }
{
    YearCells::new()
}

// Takes a record. The buffer is for a close's statement: 354 bytes are enough.
pub fn post(year: &mut YearCells, bytes: &[u8], buffer: &mut [u8]) -> Result<Posted, Refused>
    ensures posts { Takes year bytes.now buffer result }
    ensures refused { (number_of result ≡ 0 → ⊥) → year.new.cells ≡ year.old.cells }
{
    let mut values = [0u64; record_numbers::NUMBERS];
    let parsed = record_parse::parse(bytes, &mut values)?;
    let used = parsed.used;
    let head = record_heads::head_of(&values);
    let mut listing = [0u64; LISTING_WIDTH];
    record_listing::spread(&values, &mut listing);
    // by `if let`: with `map_err` and `?` the clauses of its closure would have to be proved too, which is no plainer
    if let Err(refusal) = ask(year, head, &listing, buffer.len()) {
        return Err(Refused { refusal, used });
    }
    let written = accept(year, head, &listing, buffer);
    Ok(Posted { used, written })
}
