// Values of binary32 in eighths of a kW: which count, their exact difference, and whole kW.
#![tactic(auto)]

ghost use Rattle.std.specs.Prelude.{◌≡◌, ◌/◌, true, from_bits};
ghost use Rattle.std.specs.Float.{binary32};
ghost use Rattle.telemetry_eighths.specs.Eighths.{counts, eighths_of, Less};

// Expected and metered load, in kW.
#[derive(Clone, Copy)]
pub struct Loads {
    pub expected: f32,
    pub metered: f32,
}

// Whether a value counts. n is x * 8 with its fraction dropped, and x is n eighths exactly where n / 8 is x again.
// A NaN, an infinity, a negative value and 131,072 or more, 1,048,576 eighths, fail one of the first two tests.
pub fn counts(x: f32) -> bool
    ensures { result ≡ counts x }
{
    let eighths = x * 8.0;
    if eighths >= 0.0 {
        if eighths < 1048576.0 {
            let n = std::num::truncating_f32_to_u64(eighths);
            return (n as f32) / 8.0 == x;
        }
    }
    false
}

// Expected less metered, or 0 where metered is larger. The subtraction is exact.
pub fn less(l: Loads) -> f32
    requires expected_value { counts l.expected ≡ true }
    requires metered_value { counts l.metered ≡ true }
    ensures { Less l.expected l.metered result }
{
    if l.expected < l.metered {
        return 0.0;
    }
    l.expected - l.metered
}

// The kW of a value that counts: its eighths are dropped.
pub fn whole_kw(x: f32) -> u64
    requires { counts x ≡ true }
    ensures { result ≡ eighths_of x / 8 }
{
    std::num::truncating_f32_to_u64(x)
}

// The value of a bit pattern, a NaN's too, at which `f32::from_bits` is undefined.
#[tactic(auto, using(crate::proofs::Patterns::nan_of, crate::proofs::Patterns::no_nan))]
pub fn from_pattern(bits: u32) -> f32
    ensures { result ≡ from_bits binary32 bits }
{
    if bits % 0x8000_0000 > 0x7f80_0000 {
        0.0 / 0.0
    } else {
        f32::from_bits(bits)
    }
}
