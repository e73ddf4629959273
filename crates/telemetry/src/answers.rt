// A sample of telemetry answered by its number and its kW, as the C interface has it: C takes no Result.
ghost use Rattle.telemetry.specs.Reduction.{Answers};

use crate::{Sample, reduction};

// The number that a sample is answered with; its kW go out, 0 where it is refused.
pub fn answer(sample: Sample, kw: &mut u64) -> u64
    ensures { Answers sample result kw.new }
{
    match reduction(sample) {
        Ok(reduced) => {
            *kw = reduced;
            0
        }
        Err(refusal) => {
            *kw = 0;
            refusal.number()
        }
    }
}
