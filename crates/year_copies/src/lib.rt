// Parts of the year by value, read out of its cells: its registrations, its terms, and what is billed.
#![tactic(auto)]

ghost use Rattle.std.specs.Prelude.{◌≡◌, ◌+◌, ◌≤◌, length};
ghost use Rattle.ids.specs.Ids.{tabulate};
ghost use Rattle.limits.specs.Limits.{parties};
ghost use Rattle.year_cells.specs.Rows.{from};
ghost use Rattle.year_cells.specs.Layout.{year_in};

use limits::{PARTIES, REGISTRATIONS};
use year::{Amounts, Registration, Terms};
use year_cells::{
    BILLED_CREDIT_PLACE, BILLED_LSE_PLACE, BILLED_PLACE, BILLED_TEST_PLACE, Cells,
    OBLIGATIONS_PLACE,
};

// A number a seller, or a number an LSE, from a place on, of any table.
pub fn numbers_at(cells: &[u64], p: usize) -> [u64; PARTIES]
    requires { p + parties ≤ length cells.now }
    ensures { result ≡ tabulate parties (from p cells.now) }
{
    let mut numbers = [0u64; PARTIES];
    numbers.copy_from_slice(&cells[p..p + PARTIES]);
    numbers
}

// The year's registrations, which hold `units::Nominated` kilowatts.
pub fn registrations_of(year: &Cells) -> [Registration; REGISTRATIONS]
    ensures { result ≡ (year_in year.now).terms.registrations }
{
    let first = year_cells::registration_at(year, 0);
    let mut registrations = [first; REGISTRATIONS];
    for i in 0..REGISTRATIONS {
        registrations[i] = year_cells::registration_at(year, i);
    }
    registrations
}

// What no event, test or close changes.
pub fn terms_of(year: &Cells) -> Terms
    ensures { result ≡ (year_in year.now).terms }
{
    let registrations = registrations_of(year);
    let obligations = numbers_at(year, OBLIGATIONS_PLACE);
    Terms {
        leap: year[year_cells::LEAP_PLACE],
        factor: year[year_cells::FACTOR_PLACE],
        requirement: year[year_cells::REQUIREMENT_PLACE],
        registrations,
        obligations,
    }
}

// The amounts to date at the last close.
pub fn billed_of(year: &Cells) -> Amounts
    ensures { result ≡ (year_in year.now).billed }
{
    let compliance = numbers_at(year, BILLED_PLACE);
    let test = numbers_at(year, BILLED_TEST_PLACE);
    let credit = numbers_at(year, BILLED_CREDIT_PLACE);
    let lse = numbers_at(year, BILLED_LSE_PLACE);
    Amounts {
        compliance,
        test,
        credit,
        lse,
    }
}
