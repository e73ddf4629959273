// Days to date, due months, and when a product may be called or tested.
#![tactic(auto)]

ghost use Rattle.std.specs.Prelude.{◌≡◌, ◌≤◌};
ghost use Rattle.limits.specs.Limits.{close_limit};
ghost use Rattle.calendar.specs.Calendar.{days, due, between, summer, callable, testable};

use limits::CLOSES;

// The products that have months of their own; an Annual one may always be called. Numbers, no enum: `due_month`, `callable` and `testable`
// answer every number, as `due`, `callable` and `testable` of specs/Calendar.antt do.
pub const LIMITED: u64 = 0;

pub const EXTENDED_SUMMER: u64 = 1;

// The period in which a Limited product is not called.
pub const OFF_PEAK: u64 = 2;

// The last day of each month that can be closed, counted from 1 June, in a year of 365 days.
const MONTH_ENDS: [u64; CLOSES] = [
    30, 61, 92, 122, 153, 183, 214, 245, 273, 304, 334, 365, 365, 365, 365,
];

// Days from 1 June to the end of a month. The leap day is February's, month 9.
pub fn days(leap: u64, month: u64) -> u64
    requires { (leap ≤ 1) × (1 ≤ month) × (month ≤ close_limit) }
    ensures { result ≡ days leap month }
{
    let row = (month - 1) as usize;
    let end = MONTH_ENDS[row];
    if month < 9 { end } else { end + leap }
}

// The month from which an event is charged.
#[tactic(auto, unfolding(crate::specs::Calendar::due))]
pub fn due_month(product: u64, month: u64) -> u64
    requires { month ≤ 12 }
    ensures { result ≡ due product month }
{
    let earliest = match product {
        LIMITED => 5,
        _ => 13,
    };
    (month + 3).max(earliest)
}

fn between(low: u64, high: u64, month: u64) -> bool
    ensures { result ≡ between low high month }
{
    (low..=high).contains(&month)
}

fn summer(month: u64) -> bool
    ensures { result ≡ summer month }
{
    between(1, 5, month) || month == 12
}

// May the product be called?
#[tactic(auto, unfolding(crate::specs::Calendar::callable))]
pub fn callable(product: u64, month: u64, period: u64) -> bool
    ensures { result ≡ callable product month period }
{
    match product {
        LIMITED => between(1, 4, month) && period != OFF_PEAK,
        EXTENDED_SUMMER => summer(month),
        _ => true,
    }
}

// May the product be tested?
#[tactic(auto, unfolding(crate::specs::Calendar::testable))]
pub fn testable(product: u64, month: u64) -> bool
    ensures { result ≡ testable product month }
{
    match product {
        LIMITED => between(1, 4, month),
        _ => summer(month),
    }
}
