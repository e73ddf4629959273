// The rates in force and the caps, once all registrations are entered into the working table: one without a rate of its own borrows its area's.
#![tactic(auto)]

ghost use Rattle.std.specs.Prelude.{◌+◌, ◌<◌};
ghost use Rattle.limits.specs.Limits.{registrations, areas};
ghost use Rattle.settle_table.specs.Places.{area_rate_row};
ghost use Rattle.settle_table.specs.Rows.{Aside, Row};
ghost use Rattle.settle_rates.specs.Entering.{Begun};
ghost use Rattle.settle_rates.specs.Rating.{average_in, Rating, Rated};

use limits::{AREAS, REGISTRATIONS};
use settle_table::Work;
use units::{Kilowatts, Nominated};
use year_cells::YearCells;

mod area_sums;
mod own_rates;
mod terms;

pub use terms::enter;

// Each area's rate: the average of its registrations' own rates.
fn average(work: &mut Work)
    ensures averages { Row work.new area_rate_row areas (average_in work.old) }
    ensures aside { Aside area_rate_row areas work.old work.new }
{
    for a in 0..AREAS {
        let kw = Nominated(settle_table::get(work, settle_table::AREA_KW, a));
        let worth = settle_table::get(work, settle_table::AREA_WORTH, a);
        let rate = kw.average(worth);
        settle_table::put(work, settle_table::AREA_RATE, a, rate);
    }
}

// A registration without a rate of its own has its area's, and the cap by that. One that is not known has committed nothing, and has none.
fn borrow(year: &YearCells, work: &mut Work, i: usize)
    requires i_lt_registrations { i < registrations }
    requires rating { Rating year.now.cells i work.old }
    ensures { Rating year.now.cells (i + 1) work.new }
{
    let own = settle_table::get(work, settle_table::RATE, i);
    if own > 0 {
        return;
    }
    let committed = Nominated::new(settle_table::get(work, settle_table::COMMITTED, i));
    if committed.0 == 0 {
        return;
    }
    let area = settle_table::get(work, settle_table::AREA, i) as usize;
    let rate = settle_table::get(work, settle_table::AREA_RATE, area);
    let all = settle_facts::unforced(year, committed);
    let cap = all.0 * rate;
    settle_table::put(work, settle_table::RATE, i, rate);
    settle_table::put(work, settle_table::CAP, i, cap);
}

// The rates in force of all registrations, once all are entered, and their caps.
#[tactic(auto, using(crate::specs::Rating::rating_begins))]
pub fn rate(year: &YearCells, work: &mut Work)
    requires begun { Begun year.now.cells registrations work.old }
    ensures { Rated year.now.cells work.new }
{
    average(work);
    for i in 0..REGISTRATIONS {
        borrow(year, work, i);
    }
}
