// The questions put to what joins a pool before its first event: a registration, an LSE, a clearing.
#![tactic(auto)]

ghost use Rattle.std.specs.Prelude.{◌≡◌, not, [], ◌∷◌};
ghost use Rattle.record_layouts.specs.Questions.{first_failed};
ghost use Rattle.year.specs.declared.Listing.{Listing};
ghost use Rattle.year_cells.specs.Layout.{year_in};
ghost use Rattle.record_heads.specs.Within.{RegistrationWithin, LseWithin, ClearingWithin};
ghost use Rattle.refusals.specs.Numbers.{answered};
ghost use Rattle.question_list.specs.Questions.{is_open, Numbered};

use question_list::is_open;
use record_heads::{ClearingHead, Head, LseHead, RegistrationHead};
use refusals::{Refusal, ask};
use year_cells::Cells;

// Questions 6 and 7.
fn ask_joining(year: &Cells) -> Result<(), Refusal>
    ensures { answered result ≡ (let y = year_in year.now in first_failed ((6, is_open y) ∷ (7, not y.started) ∷ [])) }
{
    ask(is_open(year), Refusal::Opening)?;
    ask(!year_cells::started(year), Refusal::Started)
}

// The questions put to a registration.
pub fn ask_registration(year: &Cells, r: RegistrationHead) -> Result<(), Refusal>
    requires { RegistrationWithin r }
    ensures { (l : Listing) → Numbered (year_in year.now) (Head.Registration r) l (answered result) }
{
    ask_joining(year)?;
    let old = year_cells::registration_at(year, r.id as usize);
    ask(!old.known, Refusal::IdTaken)
}

// The questions put to an LSE record.
pub fn ask_lse(year: &Cells, j: LseHead) -> Result<(), Refusal>
    requires { LseWithin j }
    ensures { (l : Listing) → Numbered (year_in year.now) (Head.Lse j) l (answered result) }
{
    ask_joining(year)?;
    ask(
        year_cells::obligation_of(year, j.id as usize) == 0,
        Refusal::IdTaken,
    )
}

// The questions put to a clearing.
pub fn ask_clearing(year: &Cells, c: ClearingHead) -> Result<(), Refusal>
    requires { ClearingWithin c }
    ensures { (l : Listing) → Numbered (year_in year.now) (Head.Clearing c) l (answered result) }
{
    ask_joining(year)?;
    let registration = year_cells::registration_at(year, c.registration as usize);
    let clearings = year_cells::clearings_at(year, c.registration as usize);
    ask(registration.known, Refusal::WrongEntries)?;
    ask(clearings.count < 4, Refusal::FourClearings)
}
