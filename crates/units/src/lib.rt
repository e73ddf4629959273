// Nominated and unforced kilowatts: two units, with conversion the only way across.
#![tactic(auto)]

ghost use Rattle.std.specs.Prelude.{◌≡◌, ◌^◌, ◌*◌, ◌-◌, ◌/◌, ◌≤◌, ◌<◌, ℕ};
ghost use Rattle.std.proofs.Common.{rules};
ghost use Rattle.units.specs.Units.{convert};
ghost use Rattle.limits.specs.Limits.{registrations, nominated_limit, unforced_limit, factor_limit};

use limits::{NOMINATED_KW, REGISTRATIONS, UNFORCED_KW};

// What the two units share: a number of kilowatts, and the most of one registration.
pub trait Kilowatts: Copy {
    ghost LIMIT: { ℕ };

    ghost number: { Self → ℕ };

    // The most of one registration.
    const LIMIT: u64;

    // So many kilowatts.
    fn of(kw: u64) -> Self
        ensures { number result ≡ kw };

    // These kilowatts, as a number.
    fn kw(self) -> u64
        ensures { result ≡ number self };

    ghost fits: { registrations * LIMIT < 2 ^ 64 };

    // The kilowatts of one registration, never more than its limit.
    final fn new(kw: u64) -> Self
        requires { kw ≤ LIMIT }
        ensures { number result ≡ kw }
    {
        Self::of(kw.min(Self::LIMIT))
    }

    // A sum over registrations, a seller's or an area's, or a deficit: never more than 64 registrations' limit.
    final fn sum(kw: u64) -> Self
        requires { kw ≤ registrations * LIMIT }
        ensures { number result ≡ kw }
    {
        Self::of(kw.min(REGISTRATIONS as u64 * Self::LIMIT))
    }

    // What is left of these kilowatts, at least 0.
    final fn less(self, other: Self) -> Self
        ensures { number result ≡ number self - number other }
    {
        Self::of(self.kw().saturating_sub(other.kw()))
    }
}

// Kilowatts as nominated.
#[derive(Clone, Copy)]
pub struct Nominated(pub u64);

// Unforced kilowatts: nominated ones times the DR Factor and the Forecast Pool Requirement.
#[derive(Clone, Copy)]
pub struct Unforced(pub u64);

impl Kilowatts for Nominated {
    ghost LIMIT = { nominated_limit };

    ghost number = { λ it. it.0 };

    ghost fits = { Prim.search rules };

    const LIMIT: u64 = NOMINATED_KW;

    fn of(kw: u64) -> Nominated {
        Nominated(kw)
    }

    fn kw(self) -> u64 {
        self.0
    }
}

impl Kilowatts for Unforced {
    ghost LIMIT = { unforced_limit };

    ghost number = { λ it. it.0 };

    ghost fits = { Prim.search rules };

    const LIMIT: u64 = UNFORCED_KW;

    fn of(kw: u64) -> Unforced {
        Unforced(kw)
    }

    fn kw(self) -> u64 {
        self.0
    }
}

impl Nominated {
    // What one of these kilowatts is worth on average, rounded down, where all are worth so much; of none, 0.
    pub fn average(self, worth: u64) -> u64
        ensures { result ≡ worth / self.0 }
    {
        worth.checked_div(self.0).unwrap_or(0)
    }

    // Converted by the year's two factors, in ten-thousandths.
    #[tactic(auto, unfolding(crate::specs::Units::convert))]
    pub fn unforced(self, factor: u64, requirement: u64) -> Unforced
        requires { (self.0 ≤ registrations * nominated_limit) × (factor ≤ factor_limit) × (requirement ≤ factor_limit) }
        ensures { result.0 ≡ convert factor requirement self.0 }
    {
        Unforced(self.0 * factor * requirement / 100_000_000)
    }
}
