// Records written by their layouts.
#![tactic(auto)]

ghost use Rattle.refusals.specs.Numbers.{answered};
ghost use Rattle.record_numbers.specs.Calls.{Writes};
ghost use Rattle.record_write.specs.Encoding.{written_of};

use crate::encoding::put_record;
use record_checks::{head_permitted, is_kind, lists_permitted, lists_rise};
use record_shapes::{head_of, shape_of, size_of};
use refusals::Refusal;

mod encoding;

// A record's bytes into the front of a lent buffer, and how many they are: questions 1, 3, 5, then 16.
pub fn write(numbers: &[u64], bytes: &mut [u8]) -> Result<usize, Refusal>
    ensures { Writes numbers.now bytes.old (answered result) (written_of result) bytes.new }
{
    let [first, ..] = numbers else {
        return Err(Refusal::NoKind);
    };
    if !is_kind(*first) {
        return Err(Refusal::NoKind);
    }
    let kind = *first as usize;
    if numbers.len() < head_of(kind) || !head_permitted(kind, numbers) {
        return Err(Refusal::OutOfLimits);
    }
    let shape = shape_of(kind, numbers);
    if numbers.len() != shape.count || !lists_permitted(kind, false, numbers) {
        return Err(Refusal::OutOfLimits);
    }
    if !lists_rise(kind, numbers) {
        return Err(Refusal::NotRising);
    }
    if bytes.len() < size_of(shape) {
        return Err(Refusal::NoRoom);
    }
    Ok(put_record(kind, numbers, bytes))
}
