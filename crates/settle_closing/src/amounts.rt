// All amounts to date at a month, from the registrations that are entered into the working table and the year's cells.
ghost use Rattle.std.specs.Prelude.{◌≡◌, ◌≤◌};
ghost use Rattle.limits.specs.Limits.{registrations, close_limit};
ghost use Rattle.owed.specs.Owed.{amounts};
ghost use Rattle.settle_facts.specs.CellFacts.{facts};
ghost use Rattle.settle_rates.specs.Entering.{Begun};

use settle_table::Work;
use year::Amounts;
use year_cells::YearCells;
use year_copies::numbers_at;

// All amounts to date at month k: the rates in force first, then the passes over events' entries, those over tests' entries, and the LSEs.
pub fn amounts_to_date(year: &YearCells, work: &mut Work, k: u64) -> Amounts
    requires { Begun year.now.cells registrations work.old × (1 ≤ k) × (k ≤ close_limit) }
    ensures { result ≡ amounts (facts year.now.cells) k }
{
    settle_rates::rate(year, work);
    crate::events::bill_events(year, work, k);
    settle_tests::charge_tests(year, work, k);
    settle_lses::credit_lses(year, work);
    Amounts {
        compliance: numbers_at(work, settle_table::COMPLIANCE),
        test: numbers_at(work, settle_table::TEST),
        credit: numbers_at(work, settle_table::CREDIT),
        lse: numbers_at(work, settle_table::LSE),
    }
}
