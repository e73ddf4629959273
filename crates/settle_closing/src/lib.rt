// What is owed at a month, of a year whose registrations are lent: their terms go into the working table, then the closing goes over the year's cells.
#![tactic(auto)]

ghost use Rattle.std.specs.Prelude.{◌≡◌, ◌≤◌};
ghost use Rattle.limits.specs.Limits.{registrations, close_limit};
ghost use Rattle.year_cells.specs.Layout.{cell_registrations};
ghost use Rattle.owed.specs.Owed.{amounts};
ghost use Rattle.settle_facts.specs.CellFacts.{facts};

use limits::REGISTRATIONS;
use settle_table::SIZE;
use year::{Amounts, Registration};
use year_cells::YearCells;

mod amounts;
mod events;

// All amounts to date at month k, of a year whose registrations are lent.
pub fn settle(registrations: &[Registration], year: &YearCells, k: u64) -> Amounts
    requires { (registrations.now ≡ cell_registrations year.now.cells) × (1 ≤ k) × (k ≤ close_limit) }
    ensures { result ≡ amounts (facts year.now.cells) k }
{
    let mut work = [0u64; SIZE];
    for (i, registration) in registrations.iter().enumerate() {
        settle_rates::enter(year, &mut work, i, *registration);
    }
    amounts::amounts_to_date(year, &mut work, k)
}

// All amounts to date at month k: the year's own registrations are lent.
pub fn amounts_of(registrations: [Registration; REGISTRATIONS], year: &YearCells, k: u64) -> Amounts
    requires { (registrations ≡ cell_registrations year.now.cells) × (1 ≤ k) × (k ≤ close_limit) }
    ensures { result ≡ amounts (facts year.now.cells) k }
{
    settle(&registrations, year, k)
}
