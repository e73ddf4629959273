// Pass 2 over an event's entries: what each seller's entries are short and over, and its shortfall and excess from these.
#![tactic(auto)]

ghost use Rattle.std.specs.Prelude.{◌≡◌, ◌+◌, ◌≤◌, ◌<◌};
ghost use Rattle.limits.specs.Limits.{registrations, sellers, event_limit, nominated_sum};
ghost use Rattle.settle_facts.specs.CellFacts.{facts};
ghost use Rattle.settle_table.specs.Columns.{Columns};
ghost use Rattle.ids.specs.Ids.{at};
ghost use Rattle.settle_table.specs.Places.{allotment_width, short_row, allotment_places, event_places, size};
ghost use Rattle.settle_table.specs.Rows.{Aside, Row, none};
ghost use Rattle.settle_shortfalls.specs.Sums.{compare, net_of};
ghost use Rattle.settle_shortfalls.specs.Weighing.{compared_entry, entry_at, Weighed, Netted, Ready};

use limits::{REGISTRATIONS, SELLERS};
use settle_facts::EventEntry;
use settle_table::Work;
use units::{Kilowatts, Nominated, Unforced};
use year_cells::YearCells;

mod off_peak;
mod shares;

pub use off_peak::measure;
pub use shares::share;

// An entry's reduction compared with what its registration committed: its seller, what it is short and what it is over.
#[derive(Clone, Copy)]
pub struct Compared {
    pub seller: usize,
    pub short: Nominated,
    pub over: Nominated,
}

// Registration i's reduction, compared with what it committed.
fn compare(work: &Work, i: usize, reduction: Nominated) -> Compared
    requires { i < registrations }
    ensures { result ≡ compare work.now i reduction.0 }
{
    let committed = Nominated(settle_table::get(work, settle_table::COMMITTED, i));
    Compared {
        seller: settle_table::get(work, settle_table::SELLER, i) as usize,
        short: committed.less(reduction),
        over: reduction.less(committed),
    }
}

// An entry of an event: its reduction compared, and its second reduction.
#[derive(Clone, Copy)]
pub struct MeasuredEntry {
    pub first: Compared,
    pub second: Nominated,
}

// What a look at registration i's entry gave, compared with what it committed.
fn compared_entry(work: &Work, i: usize, x: EventEntry) -> MeasuredEntry
    requires { i < registrations }
    ensures { result ≡ compared_entry work.now i x }
{
    MeasuredEntry {
        first: compare(work, i, x.reduction),
        second: x.second,
    }
}

// One look at an entry, compared with what its registration committed: Ok and Err as `settle_facts::look` has them.
pub fn entry_at(
    year: &YearCells,
    work: &Work,
    ev: usize,
    i: usize,
) -> Result<MeasuredEntry, MeasuredEntry>
    requires ev_lt_event_limit { (ev < event_limit) × (i < registrations) }
    requires columns { Columns (facts year.now.cells) registrations work.now }
    ensures { result ≡ entry_at (facts year.now.cells) ev i }
{
    match settle_facts::look(&year.cells, ev, i) {
        Ok(x) => Ok(compared_entry(work, i, x)),
        Err(x) => Err(compared_entry(work, i, x)),
    }
}

// What each seller's entries are short, and what they are over. In the contracts `ev < event_limit` is of an index alone, and Columns
// relates the table to the year: neither is a fact of one value's type.
fn sums(year: &YearCells, work: &mut Work, ev: usize)
    requires ev_lt_event_limit { ev < event_limit }
    requires columns { Columns (facts year.now.cells) registrations work.old }
    requires row { Row work.old short_row allotment_places none }
    ensures weighed { Weighed (facts year.now.cells) ev work.new }
    ensures aside { Aside short_row allotment_places work.old work.new }
{
    for i in 0..REGISTRATIONS {
        if let Ok(x) = entry_at(year, work, ev, i) {
            settle_table::add_at(work, settle_table::SHORT, x.first.seller, x.first.short.0);
            settle_table::add_at(work, settle_table::OVER, x.first.seller, x.first.over.0);
        }
    }
}

// What a seller's entries are short and over in an event, and its shortfall from these.
#[derive(Clone, Copy)]
pub struct Net {
    pub short: Nominated,
    pub over: Nominated,
    pub shortfall: Unforced,
}

// A seller's net, where the row from p on has what entries are short, and the one an allotment behind it what they are over.
pub fn net_of(year: &YearCells, work: &Work, p: usize, s: usize, deficit: Unforced) -> Net
    requires sellers_bound { (p + allotment_width + sellers ≤ size) × (s < sellers) }
    requires s_bound { (at work.now (p + s) ≤ nominated_sum) × (at work.now (p + allotment_width + s) ≤ nominated_sum) }
    ensures { result ≡ net_of (facts year.now.cells) work.now p s deficit.0 }
{
    let short = Nominated::sum(settle_table::get(work, p, s));
    let over = Nominated::sum(settle_table::get(work, p + settle_table::ALLOTMENT_WIDTH, s));
    Net {
        short,
        over,
        shortfall: settle_facts::shortfall(year, short, over, deficit),
    }
}

// Each seller's net, and from it its shortfall and its excess.
fn nets(year: &YearCells, work: &mut Work, ev: usize)
    requires ev_lt_event_limit { ev < event_limit }
    requires weighed { Weighed (facts year.now.cells) ev work.old }
    ensures netted { Netted (facts year.now.cells) ev sellers work.new }
    ensures aside { Aside short_row allotment_places work.old work.new }
{
    for s in 0..SELLERS {
        let deficit = settle_facts::deficit_of(&year.cells, ev, s);
        let net = net_of(year, work, settle_table::SHORT, s, deficit);
        let excess = net.over.less(net.short);
        settle_table::put(
            work,
            settle_table::SHORT + settle_table::AMOUNT,
            s,
            net.shortfall.0,
        );
        settle_table::put(work, settle_table::OVER + settle_table::AMOUNT, s, excess.0);
    }
}

// The shortfalls and the excesses, ready to be allotted; u, e and the marks of the event's entries are still to come.
pub fn weigh(year: &YearCells, work: &mut Work, ev: usize)
    requires ev_lt_event_limit { ev < event_limit }
    requires columns { Columns (facts year.now.cells) registrations work.old }
    ensures ready { Ready (facts year.now.cells) ev work.new }
    ensures aside { Aside short_row event_places work.old work.new }
{
    settle_table::zero(work, settle_table::SHORT, settle_table::EVENT_PLACES);
    sums(year, work, ev);
    nets(year, work, ev);
}
