// The bill's lines, as bytes: those of a statement and of a refusal.
// Each function puts its text into a lent buffer from a place on and answers the next place, so that output can be gathered.
#![tactic(auto)]

ghost use Rattle.std.specs.Prelude.{◌+◌, ◌*◌, ◌^◌, ◌≤◌, ◌<◌, length};
ghost use Rattle.statement.specs.Value42.{value42};
ghost use Rattle.text.specs.Pasted.{Pasted};
ghost use Rattle.text_bill.specs.Lies.{Lies};
ghost use Rattle.text.specs.Lines.{word};
ghost use Rattle.text_bill.specs.Put.{Puts, Reaches, Reports, amounts_at, line_at, lines_at};
ghost use Rattle.text_bill.specs.Text.{cents, month_line, party_bits, party_room, refusal_line, room, statement_lines, statement_room};

mod sort;

use bits_read::Cursor;
use sort::Sort;
use text::{put_byte, put_decimal, put_number};

// The bytes that a caller leaves free for one report.
pub const ROOM: usize = 4177;

// The bytes that a statement is read from: enough for any counts of sellers and LSEs.
pub const STATEMENT: usize = 684;

// Amounts are 42 bits of two's complement: the first negative one, and one more than the largest number.
const NEGATIVE: u64 = 0x200_0000_0000;

const WHOLE: u64 = 0x400_0000_0000;

// Puts an amount, as a further word of a line.
fn put_amount(bits: u64, out: &mut [u8], at: usize) -> usize
    requires bits_bound { bits < 2 ^ 42 }
    requires at_in_bounds { at + 22 ≤ length out.old }
    ensures pasted { Pasted out.old out.new at (word (cents (value42 bits))) result }
    ensures upper_bound { result ≤ at + 22 }
{
    let p = put_byte(out, at, b' ');
    if bits < NEGATIVE {
        return put_decimal(out, p, bits);
    }
    let q = put_byte(out, p, b'-');
    put_decimal(out, q, WHOLE - bits)
}

// Puts the line of a month: `M month`.
fn put_month(month: u64, out: &mut [u8], at: usize) -> usize
    requires { at + 23 ≤ length out.old }
    ensures pasted { Pasted out.old out.new at (month_line month) result }
    ensures upper_bound { result ≤ at + 23 }
{
    let p = put_byte(out, at, b'M');
    let p = put_number(out, p, month);
    put_byte(out, p, b'\n')
}

// The place after text that is put, and the cursor behind what it is read from.
#[derive(Clone, Copy)]
struct Place {
    at: usize,
    next: Cursor,
}

// Puts the next n amounts of a statement, as further words of a line.
fn put_amounts(statement: &[u8], n: usize, out: &mut [u8], from: Place) -> Place
    requires n_bound { n ≤ 3 }
    requires lies { Lies statement.now from.next.at (42 * n) }
    requires n_in_bounds { from.at + 22 * n ≤ length out.old }
    ensures puts { Puts out.old out.new from (amounts_at statement.now from n) result }
    ensures reaches { Reaches from (22 * n) (42 * n) result }
{
    let mut place = from;
    for _ in 0..n {
        let amount = place.next.read_field(statement, 42);
        place = Place {
            at: put_amount(amount.value, out, place.at),
            next: amount.next,
        };
    }
    place
}

// Puts the line of a party of a sort.
fn put_party(statement: &[u8], sort: Sort, out: &mut [u8], from: Place) -> Place
    requires lies { Lies statement.now from.next.at (party_bits sort.amounts) }
    requires amounts_in_bounds { from.at + party_room sort.amounts ≤ length out.old }
    ensures puts { Puts out.old out.new from (line_at statement.now sort from) result }
    ensures reaches { Reaches from (party_room sort.amounts) (party_bits sort.amounts) result }
{
    let id = from.next.read_field(statement, 4);
    let p = put_byte(out, from.at, sort.letter);
    let behind_id = Place {
        at: put_number(out, p, id.value),
        next: id.next,
    };
    let place = put_amounts(statement, sort.amounts, out, behind_id);
    Place {
        at: put_byte(out, place.at, b'\n'),
        next: place.next,
    }
}

// Puts the lines of so many parties of a sort.
fn put_parties(statement: &[u8], sort: Sort, count: u64, out: &mut [u8], from: Place) -> Place
    requires count_bound { count ≤ 31 }
    requires lies { Lies statement.now from.next.at (party_bits sort.amounts * count) }
    requires count_in_bounds { from.at + party_room sort.amounts * count ≤ length out.old }
    ensures puts { Puts out.old out.new from (lines_at statement.now sort from count) result }
    ensures reaches { Reaches from (party_room sort.amounts * count) (party_bits sort.amounts * count) result }
{
    let mut place = from;
    for _ in 0..count {
        place = put_party(statement, sort, out, place);
    }
    place
}

// Puts the lines of a statement: `M month`, `S seller compliance test credit`, `L lse credit`. One cursor goes through its fields.
fn statement_lines(statement: &[u8], out: &mut [u8], at: usize) -> usize
    requires statement_room_in_bounds { statement_room ≤ length statement.now }
    requires room_in_bounds { at + room ≤ length out.old }
    ensures { Pasted out.old out.new at (statement_lines statement.now) result }
{
    let month = Cursor::first().read_field(statement, 4);
    let sellers = month.next.read_field(statement, 5);
    let lses = sellers.next.read_field(statement, 5);
    let seller = Sort {
        letter: b'S',
        amounts: 3,
    };
    let lse = Sort {
        letter: b'L',
        amounts: 1,
    };
    let first = Place {
        at: put_month(month.value, out, at),
        next: lses.next,
    };
    let place = put_parties(statement, seller, sellers.value, out, first);
    put_parties(statement, lse, lses.value, out, place).at
}

// Puts the line of a refusal: `N position number`.
pub fn refusal_line(position: u64, number: u64, out: &mut [u8], at: usize) -> usize
    requires { at + 44 ≤ length out.old }
    ensures { Pasted out.old out.new at (refusal_line position number) result }
{
    let p = put_byte(out, at, b'N');
    let p = put_number(out, p, position);
    let p = put_number(out, p, number);
    put_byte(out, p, b'\n')
}

// Puts the report of a record of this kind that is answered with this number.
// Both stay numbers: its clause, `Reports`, which may not change, holds of each.
pub fn answer_lines(
    position: u64,
    kind: u8,
    number: u64,
    statement: &[u8],
    out: &mut [u8],
    at: usize,
) -> usize
    requires statement_room_in_bounds { statement_room ≤ length statement.now }
    requires room_in_bounds { at + room ≤ length out.old }
    ensures { Reports position kind number statement.now out.old out.new at result }
{
    match (number, kind) {
        (0, 6) => statement_lines(statement, out, at),
        (0, _) => at,
        _ => refusal_line(position, number, out, at),
    }
}
