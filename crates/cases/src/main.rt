// Answers calls, one to a line that begins with the call's name: `take BYTES ROOM`, `read BYTES ROOM`, `write ROOM NUMBERS`, `telemetry pair BITS BITS`, `telemetry direct BITS`.
// Bytes are in hexadecimal, `-` where there are none, and so are the eight digits of a value's bits. Records are taken from a new book on, and `new` begins another. A line with another name is passed over.
#![tactic(auto)]

ghost use Rattle.std.specs.Prelude.{◌≤◌, length};

use bits_read::Cursor;
use std::io::{self, Read};
use telemetry::Sample;
use text_stream::Window;
use year_cells::YearCells;

fn main(rt: HostRuntime) -> io::Result<()> {
    let mut buffer = [0u8; 65536];
    cases(&rt, &mut rt.reader(), &mut buffer)
}

// Answers one line after another, up to the end, or up to a read that fails: the lines at hand are answered still.
fn cases<R: Read>(rt: &impl Print, input: &mut R, buffer: &mut [u8]) -> io::Result<()> {
    let mut year = book::new_book();
    let mut window = Window::new();
    for _ in 0..u64::MAX {
        let line = match text_stream::next_line(input, buffer, window) {
            Ok(line) => line,
            Err(failed) => failed.found,
        };
        window = line.rest;
        if line.start == window.end {
            return Ok(());
        }
        case(rt, &mut year, &buffer[line.start..line.end])?;
    }
    Ok(())
}

// Makes the call that a line names, known by its first letter, and where that is a t by the name's length too.
fn case(rt: &impl Print, year: &mut YearCells, line: &[u8]) -> io::Result<()> {
    let [name, ..] = line else {
        return Ok(());
    };
    if *name == b'n' {
        *year = book::new_book();
        return Ok(());
    }
    let space = text::find(line, 0, b' ');
    if space == line.len() {
        return Ok(());
    }
    let operands = &line[space + 1..];
    match (*name, space) {
        (b't', 4) => take_case(rt, year, operands),
        (b't', 9) => telemetry_case(rt, operands),
        (b'r', _) => read_case(rt, operands),
        (b'w', _) => write_case(rt, operands),
        _ => Ok(()),
    }
}

// Prints the line of a call that uses so many bytes and leaves these.
fn print_call(rt: &impl Print, number: u64, used: usize, bytes: &[u8]) -> io::Result<()>
    requires { length bytes.now ≤ 4096 }
{
    let mut out = [0u8; 65536];
    let end = text::call_line(number, used as u64, bytes, &mut out, 0);
    rt.write_all(&out[..end])
}

// How many bytes a line holds, and the room that it lends.
#[derive(Clone, Copy)]
struct Lent {
    count: usize,
    room: usize,
}

// Reads `BYTES ROOM`: the bytes go into the front of a buffer, and the room is at most so much.
fn operands(line: &[u8], bytes: &mut [u8], most: usize) -> Lent
    ensures { (result.count ≤ length bytes.old) × (result.room ≤ most) }
{
    let end = text::find(line, 0, b' ');
    let count = text::hex_bytes(&line[..end], bytes);
    let mut words = [0u64; 2];
    text::decimals(line, &mut words);
    Lent {
        count,
        room: most.min(words[1] as usize),
    }
}

// Answers `take`: a line has the bytes, and the length of the lent buffer.
fn take_case(rt: &impl Print, year: &mut YearCells, line: &[u8]) -> io::Result<()> {
    let mut bytes = [0u8; 4096];
    let mut buffer = [0u8; 4096];
    let lent = operands(line, &mut bytes, 4096);
    take(rt, year, &bytes[..lent.count], &mut buffer[..lent.room])
}

// Takes a record, and prints what the call leaves.
fn take(rt: &impl Print, year: &mut YearCells, bytes: &[u8], buffer: &mut [u8]) -> io::Result<()>
    requires buffer_len_bound { length buffer.old ≤ 4096 }
{
    match book::post(year, bytes, buffer) {
        Ok(posted) => {
            let written = buffer.len().min(posted.written);
            print_call(rt, 0, posted.used, &buffer[..written])
        }
        Err(refused) => print_call(rt, refused.refusal.number(), refused.used, &[]),
    }
}

// Answers `read`: a line has the bytes, and for how many numbers there is room.
fn read_case(rt: &impl Print, line: &[u8]) -> io::Result<()> {
    let mut bytes = [0u8; 4096];
    let mut row = [0u64; 515];
    let lent = operands(line, &mut bytes, 512);
    read(rt, &bytes[..lent.count], &mut row[..lent.room + 3])
}

// Reads a record, and prints what the call leaves: its number and the answer, a `record_parse::Parsed`, go before the numbers, in one row.
fn read(rt: &impl Print, bytes: &[u8], row: &mut [u64]) -> io::Result<()>
    requires in_bounds { 3 ≤ length row.old }
    requires row_len_bound { length row.old ≤ 515 }
{
    let room = row.len() - 3;
    match record_read::read(bytes, &mut row[3..]) {
        Ok(parsed) => {
            row[..3].copy_from_slice(&[0, parsed.count as u64, parsed.used as u64]);
            print_numbers(rt, &row[..room.min(parsed.count) + 3])
        }
        Err(refused) => { print_numbers(rt, &[refused.refusal.number(), 0, refused.used as u64]) }
    }
}

// Prints numbers in one line.
fn print_numbers(rt: &impl Print, numbers: &[u64]) -> io::Result<()>
    requires { length numbers.now ≤ 515 }
{
    let mut out = [0u8; 65536];
    let end = text::numbers_line(numbers, &mut out, 0);
    rt.write_all(&out[..end])
}

// Answers `write`: a line has for how many bytes there is room, and the numbers.
fn write_case(rt: &impl Print, line: &[u8]) -> io::Result<()> {
    let mut words = [0u64; 256];
    let n = text::decimals(line, &mut words);
    if n == 0 {
        return Ok(());
    }
    let mut bytes = [0u8; 4096];
    let room = bytes.len().min(words[0] as usize);
    write(rt, &words[1..n], &mut bytes[..room])
}

// Writes a record, and prints what the call leaves.
fn write(rt: &impl Print, numbers: &[u64], bytes: &mut [u8]) -> io::Result<()>
    requires { length bytes.old ≤ 4096 }
{
    match record_write::write(numbers, bytes) {
        Ok(used) => {
            let written = bytes.len().min(used);
            print_call(rt, 0, used, &bytes[..written])
        }
        Err(refusal) => print_call(rt, refusal.number(), 0, &[]),
    }
}

// Answers `telemetry`: a pair or a direct reduction, told apart by how many values there are.
fn telemetry_case(rt: &impl Print, line: &[u8]) -> io::Result<()> {
    let space = text::find(line, 0, b' ');
    if space == line.len() {
        return Ok(());
    }
    let start = space + 1;
    let end = text::find(line, start, b' ');
    let value = value_of(&line[start..end]);
    if end == line.len() {
        reduce(rt, Sample::Direct(value))
    } else {
        reduce(rt, Sample::Pair(value, value_of(&line[end + 1..])))
    }
}

// The value whose bits a word spells.
fn value_of(word: &[u8]) -> f32 {
    let mut bytes = [0u8; 4];
    text::hex_bytes(word, &mut bytes);
    let pattern = Cursor::first().read_field(&bytes, 32);
    telemetry_eighths::from_pattern(pattern.value as u32)
}

// Prints the answer to a sample.
fn reduce(rt: &impl Print, sample: Sample) -> io::Result<()> {
    let mut kw = 0;
    let number = telemetry::answer(sample, &mut kw);
    print_numbers(rt, &[number, kw])
}
