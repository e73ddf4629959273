// The engine for C: a record read, a record written, a record taken by a book, a whole record file billed, and a reduction made from a sample. Every input is answered.
// What is answered goes out in numbers and lent places, since C has no Result (the C interface).
#![tactic(auto)]

ghost use Rattle.std.specs.Prelude.{◌≡◌};
ghost use Rattle.year.specs.Year.{new_year};
ghost use Rattle.year_cells.specs.Layout.{year_in, ValidCells};
ghost use Rattle.piermint.specs.Leaves.{ReadLeaves, WriteLeaves, PostLeaves, BillLeaves};
ghost use Rattle.telemetry.specs.declared.Sample.TheVariants.{Pair, Direct};
ghost use Rattle.telemetry.specs.Reduction.{Answers};
ghost use Rattle.std.specs.Float.{binary32};
ghost use Rattle.std.specs.Float.Ieee.{of_bits};

use telemetry::Sample;
use year_cells::{Cells, YearCells};

// Reads a record: its numbers go into the front of a lent buffer, and how many they are and the bytes of the record go out
// (`record_parse::Parsed`). Answers 0, or the number of the question that failed (`refusals::Refused`): then both are 0.
#[unsafe(no_mangle)]
pub extern "C" fn piermint_read(
    bytes: &[u8],
    numbers: &mut [u64],
    count: &mut usize,
    used: &mut usize,
) -> u64
    ensures { ReadLeaves bytes.now numbers result count used }
{
    match record_read::read(bytes, numbers) {
        Ok(parsed) => {
            *count = parsed.count;
            *used = parsed.used;
            0
        }
        Err(refused) => {
            *count = 0;
            *used = refused.used;
            refused.refusal.number()
        }
    }
}

// Writes a record: its bytes go into the front of a lent buffer, and how many they are goes out. Answers as a read does.
#[unsafe(no_mangle)]
pub extern "C" fn piermint_write(numbers: &[u64], bytes: &mut [u8], used: &mut usize) -> u64
    ensures { WriteLeaves numbers.now bytes result used }
{
    match record_write::write(numbers, bytes) {
        Ok(wrote) => {
            *used = wrote;
            0
        }
        Err(asked) => {
            *used = 0;
            asked.number()
        }
    }
}

// Makes the cells a new book's, whatever they held.
#[unsafe(no_mangle)]
pub extern "C" fn piermint_new(cells: &mut Cells)
    ensures equals { year_in cells.new ≡ new_year }
    ensures valid { ValidCells cells.new }
{
    let year = book::new_book();
    let new = year.cells;
    *cells = new;
}

// Takes a record; an accepted close leaves its statement in the buffer. The bytes consumed and the bytes of the statement
// go out. Answers 0, or the number of the question that failed: then the cells are as they were.
#[unsafe(no_mangle)]
pub extern "C" fn piermint_post(
    cells: &mut YearCells,
    bytes: &[u8],
    buffer: &mut [u8],
    used: &mut usize,
    written: &mut usize,
) -> u64
    ensures posts { PostLeaves cells bytes.now buffer result used written }
    ensures refused { (result ≡ 0 → ⊥) → cells.new.cells ≡ cells.old.cells }
{
    let posted = book::post(cells, bytes, buffer);
    *used = book::used_of(posted);
    *written = book::written_of(posted);
    book::number_of(posted)
}

// Bills a record file from a new book: leaves the records' numbers, and the statements of the accepted closes one after
// another. Answers how many records are answered; the bytes consumed and the bytes of statements go out.
#[unsafe(no_mangle)]
pub extern "C" fn piermint_bill(
    records: &[u8],
    numbers: &mut [u64],
    statements: &mut [u8],
    used: &mut usize,
    written: &mut usize,
) -> usize
    ensures { BillLeaves records.now numbers statements result used written }
{
    let totals = bill_file::bill(records, numbers, statements);
    *used = totals.used;
    *written = totals.written;
    totals.answered
}

// Makes an entry's kW from expected and metered load, given by their bit patterns; the kW go out, 0 where they are refused.
// Answers 0, or the number of the refusal.
#[unsafe(no_mangle)]
pub extern "C" fn piermint_reduction(expected: u32, metered: u32, kw: &mut u64) -> u64
    ensures { Answers (Pair (of_bits binary32 expected) (of_bits binary32 metered)) result kw.new }
{
    let expected = telemetry_eighths::from_pattern(expected);
    let metered = telemetry_eighths::from_pattern(metered);
    telemetry::answer(Sample::Pair(expected, metered), kw)
}

// Makes an entry's kW from a direct reduction, in the same way.
#[unsafe(no_mangle)]
pub extern "C" fn piermint_direct_reduction(reduction: u32, kw: &mut u64) -> u64
    ensures { Answers (Direct (of_bits binary32 reduction)) result kw.new }
{
    telemetry::answer(
        Sample::Direct(telemetry_eighths::from_pattern(reduction)),
        kw,
    )
}
