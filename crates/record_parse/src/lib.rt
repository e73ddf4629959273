// A record taken apart by its layout: questions 1 to 5.
#![tactic(auto)]

ghost use Rattle.std.specs.Prelude.{◌≡◌, true, replicate};
ghost use Rattle.bits.specs.Table.{total};
ghost use Rattle.refusals.specs.Numbers.{answered, number_of};
ghost use Rattle.record_layouts.specs.Layout.{head, widths, most_numbers};
ghost use Rattle.record_layouts.specs.Questions.{is_whole, head_numbers, row};
ghost use Rattle.record_numbers.specs.Parsing.{Known};
ghost use Rattle.record_numbers.specs.Calls.{Fills};
ghost use Rattle.record_parse.specs.Answers.{used_of, count_of, Asked};

use bits_read::Cursor;
use record_checks::{head_permitted, is_filled, is_kind, lists_permitted, lists_rise};
use record_shapes::{shape_of, size_of};
use record_unpack::{kind_of, read_head, read_lists};
use refusals::{Refusal, Refused};

// A record taken apart: how many numbers it has, and the bytes consumed.
#[derive(Clone, Copy)]
pub struct Parsed {
    pub count: usize,
    pub used: usize,
}

// A whole record, its head in front of the row, from the cursor behind the head on: questions 3 to 5.
fn parse_whole(
    head_end: Cursor,
    kind: usize,
    bytes: &[u8],
    values: &mut [u64],
) -> Result<(), Refusal>
    requires known { Known bytes.now kind }
    requires whole { is_whole bytes.now ≡ true }
    requires behind_head { head_end.at ≡ total (widths (head kind)) }
    requires head_read { values.old ≡ row (head_numbers bytes.now) }
    ensures { Asked bytes.now (answered result) values.new }
{
    if !head_permitted(kind, values) {
        return Err(Refusal::OutOfLimits);
    }
    let end = read_lists(head_end, kind, bytes, values);
    if !lists_permitted(kind, true, values) {
        return Err(Refusal::OutOfLimits);
    }
    if !is_filled(end, bytes) {
        return Err(Refusal::NotFilled);
    }
    if !lists_rise(kind, values) {
        return Err(Refusal::NotRising);
    }
    Ok(())
}

// Takes a record apart into a lent row of zeros: questions 1 to 5. The head goes first, since it has the counts. What is refused may leave numbers in the row.
pub fn parse(bytes: &[u8], values: &mut [u64]) -> Result<Parsed, Refused>
    requires { values.old ≡ replicate most_numbers 0 }
    ensures { Fills bytes.now (number_of result) (used_of result) (count_of result) values.new }
{
    let first = kind_of(bytes);
    if !is_kind(first.value) {
        return Err(Refused {
            refusal: Refusal::NoKind,
            used: 0,
        });
    }
    let kind = first.value as usize;
    let head_end = read_head(first, bytes, values);
    let shape = shape_of(kind, values);
    let used = size_of(shape);
    if bytes.len() < used {
        return Err(Refused {
            refusal: Refusal::CutOff,
            used: 0,
        });
    }
    // by `match`: with `map_err` and `?` the proof does not close
    match parse_whole(head_end, kind, bytes, values) {
        Ok(()) => Ok(Parsed {
            count: shape.count,
            used,
        }),
        Err(refusal) => Err(Refused { refusal, used }),
    }
}
