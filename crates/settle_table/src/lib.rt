// The closing's working table: one lent array of numbers with named rows, and the stores into it.
#![tactic(auto)]

ghost use Rattle.std.specs.Prelude.{◌≡◌, ◌+◌, ◌≤◌, ◌<◌, ◌^◌, length};
ghost use Rattle.ids.specs.Ids.{at, sum_to};
ghost use Rattle.settle_table.specs.Rows.{Stored, Aside, Row, none};
ghost use Rattle.settle_table.specs.Places.{size};

use limits::{AREAS, LSES, REGISTRATIONS, SELLERS};

mod allotments;

pub use allotments::{ALLOTMENT_WIDTH, AMOUNT, share};

// Rows that change together stand together (specs/Places.antt).
pub const SIZE: usize = AREA_RATE + AREAS;

// One flat array and functions over it, not a struct of rows: that a pass leaves the other passes' rows alone is one fact of one list
// (Aside and Row, in every pass's clauses), and `add_at` and `sum` serve arrays that are no such table too.
pub type Work = [u64; SIZE];

// By registration: its terms, copied from the lent run; its rate in force, and its cap.
pub const SELLER: usize = 0;

pub const PRODUCT: usize = SELLER + REGISTRATIONS;

pub const COMMITTED: usize = PRODUCT + REGISTRATIONS;

pub const RATE: usize = COMMITTED + REGISTRATIONS;

pub const CAP: usize = RATE + REGISTRATIONS;

// By registration: how many events of period 1 or 3 list it, and whether any event does (1).
pub const DISPATCH_COUNT: usize = CAP + REGISTRATIONS;

pub const DISPATCHED: usize = DISPATCH_COUNT + REGISTRATIONS;

// By registration what the events so far took of its cap; by seller their charges and credits to date.
pub const SPENT: usize = DISPATCHED + REGISTRATIONS;

pub const COMPLIANCE: usize = SPENT + REGISTRATIONS;

pub const CREDIT: usize = COMPLIANCE + SELLERS;

// One event. Five rows by seller (module allotments): what its entries are short, the shortfall that is allotted by that, the
// weights passed, the last quotients and the divisions; the same five of what they are over and the excess. By registration u, e,
// whether it is listed (1), and its second reduction.
pub const EVENT_PLACES: usize = TEST - SHORT;

pub const SHORT: usize = CREDIT + SELLERS;

pub const OVER: usize = SHORT + ALLOTMENT_WIDTH;

pub const U: usize = OVER + ALLOTMENT_WIDTH;

pub const E: usize = U + REGISTRATIONS;

pub const LISTED: usize = E + REGISTRATIONS;

pub const SECOND: usize = LISTED + REGISTRATIONS;

// Of what is measured off-peak: by registration u; five rows by seller of what its entries are short and the shortfall; by
// seller what they are over.
pub const OFF_U: usize = SECOND + REGISTRATIONS;

pub const OFF_SHORT: usize = OFF_U + REGISTRATIONS;

pub const OFF_OVER: usize = OFF_SHORT + ALLOTMENT_WIDTH;

// By seller the test charges to date, and by LSE its credit.
pub const TEST: usize = OFF_OVER + SELLERS;

pub const LSE: usize = TEST + SELLERS;

// By registration its group, 3 × zone + product, and its area.
pub const GROUP: usize = LSE + LSES;

pub const AREA: usize = GROUP + REGISTRATIONS;

// By area: what those with a rate of their own committed, what that is worth at these rates, and its average.
pub const AREA_KW: usize = AREA + REGISTRATIONS;

pub const AREA_WORTH: usize = AREA_KW + AREAS;

pub const AREA_RATE: usize = AREA_WORTH + AREAS;

// The number at place i of a row.
pub fn get(work: &Work, row: usize, i: usize) -> u64
    requires { row + i < size }
    ensures { result ≡ at work.now (row + i) }
{
    work[row + i]
}

// x at place i of a row.
pub fn put(work: &mut [u64], row: usize, i: usize, x: u64)
    requires { row + i < length work.old }
    ensures { Stored (row + i) x work.old work.new }
{
    work[row + i] = x;
}

// x more at place i of a row.
pub fn add_at(work: &mut [u64], row: usize, i: usize, x: u64)
    requires { (row + i < length work.old) × (at work.old (row + i) + x < 2 ^ 64) }
    ensures { Stored (row + i) (at work.old (row + i) + x) work.old work.new }
{
    work[row + i] += x;
}

// Zeros in the n places from p on.
pub fn zero(work: &mut [u64], p: usize, n: usize)
    requires { p + n ≤ length work.old }
    ensures zeros { Row work.new p n none }
    ensures aside { Aside p n work.old work.new }
{
    work[p..p + n].fill(0);
}

// The sum of the n places from p on.
pub fn sum(cells: &[u64], p: usize, n: usize) -> u64
    requires { (p + n ≤ length cells.now) × (sum_to n (λ i. at cells.now (p + i)) < 2 ^ 64) }
    ensures { result ≡ sum_to n (λ i. at cells.now (p + i)) }
{
    cells[p..p + n].iter().sum()
}
