// Reductions from telemetry: a sample of binary32 kilowatts becomes the kW of an entry, exactly, or a refusal.
#![tactic(auto)]

ghost use Rattle.std.specs.Prelude.{◌≡◌};
ghost use Rattle.telemetry.specs.Reduction.{within_limit, reduction_of};
ghost use Rattle.telemetry.specs.declared.Sample.TheVariants.{Pair};

use limits::NOMINATED_KW;
use refusals::Refusal;
use telemetry_eighths::{Loads, counts, less, whole_kw};

mod answers;

pub use answers::answer;

// What a gateway delivers: expected and metered load, or one direct reduction from a control switch.
#[derive(Clone, Copy)]
pub enum Sample {
    Pair(f32, f32),
    Direct(f32),
}

// The kW of an entry, or why there are none. A direct reduction is one with nothing metered, so that the one exact subtraction serves both.
pub fn reduction(sample: Sample) -> Result<u64, Refusal>
    ensures { result ≡ reduction_of sample }
{
    match sample {
        Sample::Pair(expected, metered) => of_loads(Loads { expected, metered }),
        Sample::Direct(reduction) => of_loads(Loads {
            expected: reduction,
            metered: 0.0,
        }),
    }
}

// Answers loads: first whether both count, then their difference.
#[tactic(auto, unfolding(crate::specs::Reduction::reduction_of))]
fn of_loads(l: Loads) -> Result<u64, Refusal>
    ensures { result ≡ reduction_of (Pair l.expected l.metered) }
{
    if counts(l.expected) && counts(l.metered) {
        within_limit(whole_kw(less(l)))
    } else {
        Err(Refusal::NotCounted)
    }
}

// These kW, unless they are too much for an entry.
#[tactic(auto, unfolding(crate::specs::Reduction::within_limit))]
fn within_limit(kw: u64) -> Result<u64, Refusal>
    ensures { result ≡ within_limit kw }
{
    if kw > NOMINATED_KW {
        return Err(Refusal::TooMuch);
    }
    Ok(kw)
}
