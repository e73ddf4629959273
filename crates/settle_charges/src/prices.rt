// What one listed registration is charged in an event, from its line in the working table.
ghost use Rattle.std.specs.Prelude.{cond, ◌≡◌, ◌-◌, ◌*◌, ◌/◌, ◌≤◌, ◌<◌, max};
ghost use Rattle.limits.specs.Limits.{registrations, unforced_limit, rate_limit};
ghost use Rattle.settle_charges.specs.Pricing.{line_at, daily_of};

use settle_table::Work;
use units::{Nominated, Unforced};

// A listed registration in the table; `off` is its off-peak u.
#[derive(Clone, Copy)]
pub struct Line {
    pub seller: usize,
    pub product: u64,
    pub n: u64,
    pub rate: u64,
    pub cap: u64,
    pub spent: u64,
    pub u: Unforced,
    pub off: Unforced,
    pub e: Nominated,
}

pub fn line_at(work: &Work, i: usize) -> Line
    requires { i < registrations }
    ensures { result ≡ line_at work.now i }
{
    Line {
        seller: settle_table::get(work, settle_table::SELLER, i) as usize,
        product: settle_table::get(work, settle_table::PRODUCT, i),
        n: settle_table::get(work, settle_table::DISPATCH_COUNT, i),
        rate: settle_table::get(work, settle_table::RATE, i),
        cap: settle_table::get(work, settle_table::CAP, i),
        spent: settle_table::get(work, settle_table::SPENT, i),
        u: Unforced(settle_table::get(work, settle_table::U, i)),
        off: Unforced(settle_table::get(work, settle_table::OFF_U, i)),
        e: Nominated(settle_table::get(work, settle_table::E, i)),
    }
}

// The daily charge before the cap, in thousandths of a cent; `peak` where the event is of period 1 or 3. Each case has a
// division of its own: the compiler multiplies in place of dividing by a constant, and with one division by a variable a close of off-peak
// events takes a fifth longer.
fn before_cap(peak: bool, n: u64, u: Unforced, rate: u64) -> u64
    requires u_le_unforced_limit { u.0 ≤ unforced_limit }
    requires rate_le_rate_limit { rate ≤ rate_limit }
    ensures { result ≡ u.0 * rate / cond peak (max n 2) 52 }
{
    let all = u.0 * rate;
    match n {
        _ if !peak => all / 52,
        0..=2 => all / 2,
        _ => all / n,
    }
}

// The daily charge: the lesser of that, off-peak if it is higher, and the cap's rest.
pub fn daily_of(peak: bool, line: Line) -> u64
    requires u_le_unforced_limit { line.u.0 ≤ unforced_limit }
    requires off_le_unforced_limit { line.off.0 ≤ unforced_limit }
    requires rate_le_rate_limit { line.rate ≤ rate_limit }
    ensures { result ≡ daily_of peak line }
{
    let first = before_cap(peak, line.n, line.u, line.rate);
    let second = before_cap(false, line.n, line.off, line.rate);
    let rest = line.cap.saturating_sub(line.spent);
    first.max(second).min(rest)
}
