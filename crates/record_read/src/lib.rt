// A record read: its numbers into a lent buffer.
#![tactic(auto)]

ghost use Rattle.record_read.specs.Answers.{Answers};

use record_numbers::NUMBERS;
use record_parse::{Parsed, parse};
use refusals::{Refusal, Refused};

// A record's numbers into the front of a lent buffer: questions 1 to 5, then 16. A refusal consumes no bytes.
pub fn read(bytes: &[u8], numbers: &mut [u64]) -> Result<Parsed, Refused>
    ensures { Answers bytes.now numbers.old result numbers.new }
{
    let mut values = [0u64; NUMBERS];
    // by `match`, as `record_parse::parse` goes on
    let parsed = match parse(bytes, &mut values) {
        Ok(parsed) => parsed,
        Err(refused) => return Err(Refused { used: 0, ..refused }),
    };
    if numbers.len() < NUMBERS {
        let refusal = Refusal::NoRoom;
        return Err(Refused { refusal, used: 0 });
    }
    numbers[..parsed.count].copy_from_slice(&values[..parsed.count]);
    Ok(parsed)
}
