// What is measured off-peak in a dual event, from what pass 3 left of its entries in the working table: no look at one.
ghost use Rattle.std.specs.Prelude.{◌≡◌, ◌<◌};
ghost use Rattle.limits.specs.Limits.{registrations, sellers, event_limit};
ghost use Rattle.settle_facts.specs.CellFacts.{facts};
ghost use Rattle.settle_table.specs.Places.{off_u_row, off_short_row, off_peak_places};
ghost use Rattle.settle_table.specs.Rows.{Aside, Row, none};
ghost use Rattle.settle_shortfalls.specs.OffPeak.{Entries, OffShares, OffDivided, entry_at, sum_places, Weighed, Netted, Ready};

use crate::Compared;
use limits::{REGISTRATIONS, SELLERS};
use settle_table::Work;
use units::{Kilowatts, Nominated, Unforced};
use year_cells::YearCells;

// An event's entry in the table, its second reduction compared. Limited ones are left out.
fn entry_at(year: &YearCells, work: &Work, ev: usize, i: usize) -> Option<Compared>
    requires ev_lt_event_limit { (ev < event_limit) × (i < registrations) }
    requires entries { Entries (facts year.now.cells) ev work.now }
    ensures { result ≡ entry_at (facts year.now.cells) ev i }
{
    let dual = settle_facts::is_dual(&year.cells, ev);
    let listed = settle_table::get(work, settle_table::LISTED, i);
    let product = settle_table::get(work, settle_table::PRODUCT, i);
    // `&`, not `&&`: all three are read already, as in `settle_charges::charge`
    let measured = dual & ((listed != 0) & (product != calendar::LIMITED));
    if !measured {
        return None;
    }
    let reduction = Nominated::new(settle_table::get(work, settle_table::SECOND, i));
    Some(crate::compare(work, i, reduction))
}

// What each seller's entries are short, and what they are over. The root's `sums` goes over other entries and rows: as one function it
// would take a trait with laws for how an entry is read from the table that the loop stores into, which is longer than this loop.
// What both add up is one law (specs/Sums.antt), and so is a seller's net; what `nets` and `share` store differs.
fn sums(year: &YearCells, work: &mut Work, ev: usize)
    requires ev_lt_event_limit { ev < event_limit }
    requires entries { Entries (facts year.now.cells) ev work.old }
    requires row { Row work.old off_short_row sum_places none }
    ensures weighed { Weighed (facts year.now.cells) ev work.new }
    ensures aside { Aside off_short_row sum_places work.old work.new }
{
    for i in 0..REGISTRATIONS {
        if let Some(x) = entry_at(year, work, ev, i) {
            settle_table::add_at(work, settle_table::OFF_SHORT, x.seller, x.short.0);
            settle_table::add_at(work, settle_table::OFF_OVER, x.seller, x.over.0);
        }
    }
}

// Each seller's shortfall, the whole deficit taken off.
fn nets(year: &YearCells, work: &mut Work, ev: usize)
    requires ev_lt_event_limit { ev < event_limit }
    requires weighed { Weighed (facts year.now.cells) ev work.old }
    ensures netted { Netted (facts year.now.cells) ev sellers work.new }
    ensures aside { Aside off_short_row sum_places work.old work.new }
{
    for s in 0..SELLERS {
        let deficit = settle_facts::deficit_of(&year.cells, ev, s);
        let net = crate::net_of(year, work, settle_table::OFF_SHORT, s, deficit);
        settle_table::put(
            work,
            settle_table::OFF_SHORT + settle_table::AMOUNT,
            s,
            net.shortfall.0,
        );
    }
}

// Each measured entry's share of its seller's shortfall; the table then tells each seller's divisions.
fn share(year: &YearCells, work: &mut Work, ev: usize)
    requires ev_lt_event_limit { ev < event_limit }
    requires ready { Ready (facts year.now.cells) ev work.old }
    ensures shares { OffShares (facts year.now.cells) ev work.new }
    ensures divisions { OffDivided (facts year.now.cells) ev work.new }
    ensures aside { Aside off_u_row off_peak_places work.old work.new }
{
    for i in 0..REGISTRATIONS {
        if let Some(x) = entry_at(year, work, ev, i) {
            let u = Unforced(settle_table::share(
                work,
                settle_table::OFF_SHORT,
                x.seller,
                x.short.0,
            ));
            settle_table::put(work, settle_table::OFF_U, i, u.0);
        }
    }
}

// The off-peak u of an event's entries, 0 where it is not dual.
pub fn measure(year: &YearCells, work: &mut Work, ev: usize)
    requires ev_lt_event_limit { ev < event_limit }
    requires entries { Entries (facts year.now.cells) ev work.old }
    requires row { Row work.old off_u_row off_peak_places none }
    ensures shares { OffShares (facts year.now.cells) ev work.new }
    ensures divisions { OffDivided (facts year.now.cells) ev work.new }
    ensures aside { Aside off_u_row off_peak_places work.old work.new }
{
    if settle_facts::is_dual(&year.cells, ev) {
        sums(year, work, ev);
        nets(year, work, ev);
        share(year, work, ev);
    }
}
