// Text put into a lent buffer from a place on, each function answering the next place, so that output can be gathered.
// The place stands beside the buffer, since several reports are gathered in one (a rule of the project: no heap, fixed memory).
#![tactic(auto)]

ghost use Rattle.std.specs.Prelude.{◌≡◌, [], ◌∷◌, ◌+◌, ◌*◌, ◌≤◌, ◌<◌, length};
ghost use Rattle.text.specs.Pasted.{Pasted};
ghost use Rattle.text.specs.Lines.{call_line, character, decimal, hex_of, hexadecimal, numbers_line, word};

mod scan;

pub use scan::{decimals, find, hex_bytes};

// A byte.
pub fn put_byte(out: &mut [u8], at: usize, byte: u8) -> usize
    requires { at < length out.old }
    ensures { Pasted out.old out.new at (byte ∷ []) result }
{
    out[at] = byte;
    at + 1
}

// A number's digits.
pub fn put_decimal(out: &mut [u8], at: usize, n: u64) -> usize
    requires { at + 20 ≤ length out.old }
    ensures { Pasted out.old out.new at (decimal n) result }
{
    if n < 10 {
        return put_byte(out, at, 48 + n as u8);
    }
    let p = put_decimal(out, at, n / 10);
    put_byte(out, p, 48 + (n % 10) as u8)
}

// A number as a further word of a line.
pub fn put_number(out: &mut [u8], at: usize, n: u64) -> usize
    requires { at + 21 ≤ length out.old }
    ensures pasted { Pasted out.old out.new at (word (decimal n)) result }
    ensures upper_bound { result ≤ at + 21 }
{
    let p = put_byte(out, at, b' ');
    put_decimal(out, p, n)
}

// The line of a record that is read: its numbers.
pub fn numbers_line(numbers: &[u64], out: &mut [u8], at: usize) -> usize
    requires { at + (21 * length numbers.now + 1) ≤ length out.old }
    ensures { Pasted out.old out.new at (numbers_line numbers.now) result }
{
    let Some((first, rest)) = numbers.split_first() else {
        return put_byte(out, at, b'\n');
    };
    let mut p = put_decimal(out, at, *first);
    for n in rest {
        p = put_number(out, p, *n);
    }
    put_byte(out, p, b'\n')
}

// The hexadecimal digit of a value.
#[tactic(auto, unfolding(crate::specs::Lines::character))]
fn character_of(n: u8) -> u8
    requires { n < 16 }
    ensures { result ≡ character n }
{
    match n {
        0..=9 => b'0' + n,
        _ => b'a' + (n - 10),
    }
}

// The two hexadecimal digits of a byte.
fn put_hexadecimal(out: &mut [u8], at: usize, b: u8) -> usize
    requires { at + 2 ≤ length out.old }
    ensures { Pasted out.old out.new at (hex_of b) result }
{
    let p = put_byte(out, at, character_of(b / 16));
    put_byte(out, p, character_of(b % 16))
}

// Bytes in hexadecimal, `-` where there are none.
fn put_bytes(bytes: &[u8], out: &mut [u8], at: usize) -> usize
    requires { at + (2 * length bytes.now + 1) ≤ length out.old }
    ensures pasted { Pasted out.old out.new at (hexadecimal bytes.now) result }
    ensures upper_bound { result ≤ at + (2 * length bytes.now + 1) }
{
    if bytes.len() == 0 {
        return put_byte(out, at, b'-');
    }
    let mut p = at;
    for b in bytes {
        p = put_hexadecimal(out, p, *b);
    }
    p
}

// The line of what a call answers: its number, how many bytes it used, and bytes in hexadecimal.
pub fn call_line(number: u64, used: u64, bytes: &[u8], out: &mut [u8], at: usize) -> usize
    requires { at + (2 * length bytes.now + 44) ≤ length out.old }
    ensures { Pasted out.old out.new at (call_line number used bytes.now) result }
{
    let mut p = put_decimal(out, at, number);
    p = put_number(out, p, used);
    p = put_byte(out, p, b' ');
    p = put_bytes(bytes, out, p);
    put_byte(out, p, b'\n')
}
