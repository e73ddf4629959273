// The parties of a statement: which they are, and how many.
#![tactic(auto)]

ghost use Rattle.std.specs.Prelude.{◌≡◌};
ghost use Rattle.ids.specs.Ids.{holds, count_to};
ghost use Rattle.limits.specs.Limits.{parties};
ghost use Rattle.year.specs.Sound.{SoundTerms};
ghost use Rattle.statement.specs.Statement.{has_registration, has_obligation};
ghost use Rattle.statement.specs.Marks.{Marks};

use limits::PARTIES;
use year::Terms;

mod issue;

pub use issue::write_statement;

// Which sellers have a registration. (The registrations of the terms hold `units::Nominated` kilowatts.)
pub fn present(terms: Terms) -> [bool; PARTIES]
    requires { SoundTerms terms }
    ensures { Marks (has_registration terms) result }
{
    let mut sellers = [false; PARTIES];
    for registration in &terms.registrations {
        if registration.known {
            sellers[registration.seller as usize] = true;
        }
    }
    sellers
}

// Which LSEs have an obligation.
pub fn obliged(terms: Terms) -> [bool; PARTIES]
    ensures { Marks (has_obligation terms) result }
{
    terms.obligations.map(|obligation| 0 < obligation)
}

// How many parties are marked.
pub fn count(marks: [bool; PARTIES]) -> u64
    ensures { result ≡ count_to parties (holds marks) }
{
    marks.iter().filter(|marked| **marked).count() as u64
}
