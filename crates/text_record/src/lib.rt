// A record as a line of text.
#![tactic(auto)]

ghost use Rattle.std.specs.Prelude.{◌≡◌, ◌+◌, ◌≤◌, length};
ghost use Rattle.record_layouts.specs.Questions.{record_number, consumed};
ghost use Rattle.text.specs.Pasted.{Pasted};
ghost use Rattle.text_record.specs.Line.{record_line, refused_number, line_room};

mod packed_line;

pub use packed_line::pack;
use refusals::Refusal;

// The bytes that a caller leaves free for the line of one record.
pub const ROOM: usize = 21 * record_numbers::NUMBERS + 1;

// What printing one record leaves: why it is refused, if it is, its bytes, and the place after its line.
#[derive(Clone, Copy)]
pub struct Printed {
    pub refusal: Option<Refusal>,
    pub used: usize,
    pub at: usize,
}

// Prints the line of the record at the front of the bytes.
pub fn print(position: u64, bytes: &[u8], out: &mut [u8], at: usize) -> Printed
    requires { at + line_room ≤ length out.old }
    ensures number_value { (refused_number result.refusal ≡ record_number bytes.now) × (result.used ≡ consumed bytes.now) }
    ensures pasted { Pasted out.old out.new at (record_line position bytes.now) result.at }
{
    let mut values = [0u64; record_numbers::NUMBERS];
    match record_parse::parse(bytes, &mut values) {
        Ok(record) => Printed {
            refusal: None,
            used: record.used,
            at: text::numbers_line(&values[..record.count], out, at),
        },
        Err(refused) => Printed {
            refusal: Some(refused.refusal),
            used: refused.used,
            at: text_bill::refusal_line(position, refused.refusal.number(), out, at),
        },
    }
}
