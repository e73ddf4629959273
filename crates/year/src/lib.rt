// The delivery year: what the accepted records have made so far.
#![tactic(auto)]

ghost use Rattle.std.specs.Prelude.{◌≡◌, ◌<◌};
ghost use Rattle.limits.specs.Limits.{test_groups};
ghost use Rattle.year.specs.Year.{test_group};

use limits::{EVENT_LIMIT, LSES, PRODUCTS, REGISTRATIONS, SELLERS, TEST_GROUPS};
use units::Nominated;

// Flags beside values (`known`, `taken`, `dual`) and numbers of products and periods stay in these structs: the definitions of what is owed
// and the claims speak of these very fields (what may not change: `year.Year`, `owed.Facts`, `claim_history.Claim`).

// A registration; one that is not known holds zeros.
#[derive(Clone, Copy)]
pub struct Registration {
    pub known: bool,
    pub seller: u64,
    pub area: u64,
    pub zone: u64,
    pub product: u64,
    pub committed: Nominated,
    pub rate: u64,
}

// What a registration's clearings come to: how many, the sum of price × kW, and of kW.
#[derive(Clone, Copy)]
pub struct Clearings {
    pub count: u64,
    pub value: u64,
    pub kw: u64,
}

// What an event or a test lists: entries by registration, the second reduction of those that have two (0: of one); deficits by
// seller (0: absent).
#[derive(Clone, Copy)]
pub struct Listing {
    pub listed: [bool; REGISTRATIONS],
    pub reductions: [u32; REGISTRATIONS],
    pub second: [u32; REGISTRATIONS],
    pub deficits: [u32; SELLERS],
}

// `dual`: an entry has two figures, and off-peak is measured by the second.
#[derive(Clone, Copy)]
pub struct Event {
    pub area: u64,
    pub month: u64,
    pub period: u64,
    pub dual: bool,
    pub listing: Listing,
}

// The test of a group, a zone and product; one that was not taken lists nothing.
#[derive(Clone, Copy)]
pub struct Test {
    pub taken: bool,
    pub month: u64,
    pub listing: Listing,
}

// A registration's retest: the reduction that stands for its test's. One that has none holds zeros.
#[derive(Clone, Copy)]
pub struct Retest {
    pub taken: bool,
    pub reduction: u64,
}

// What no event, test or close changes. An obligation of 0 is an LSE that is not known.
#[derive(Clone, Copy)]
pub struct Terms {
    pub leap: u64,
    pub factor: u64,
    pub requirement: u64,
    pub registrations: [Registration; REGISTRATIONS],
    pub obligations: [u64; LSES],
}

// Amounts to date in cents: three of each seller, and one of each LSE.
#[derive(Clone, Copy)]
pub struct Amounts {
    pub compliance: [u64; SELLERS],
    pub test: [u64; SELLERS],
    pub credit: [u64; SELLERS],
    pub lse: [u64; LSES],
}

// `started`: an event, test or close is accepted. `closed` counts the closes, `accepted` the events. What clearings come to and retests stand
// by registration, events in order of acceptance, and the test of zone z and product p at 3 z + p, as it was recorded.
// `billed` holds the amounts to date at the last close.
#[derive(Clone, Copy)]
pub struct Year {
    pub opened: bool,
    pub started: bool,
    pub closed: u64,
    pub terms: Terms,
    pub clearings: [Clearings; REGISTRATIONS],
    pub events: [Event; EVENT_LIMIT],
    pub accepted: usize,
    pub tests: [Test; TEST_GROUPS],
    pub retests: [Retest; REGISTRATIONS],
    pub billed: Amounts,
}

// The groups of a zone, one a product.
const PRODUCT_GROUPS: u64 = PRODUCTS as u64;

// The group of a zone and product.
pub fn group_of(zone: u64, product: u64) -> u64
    requires { test_group zone product < test_groups }
    ensures { result ≡ test_group zone product }
{
    PRODUCT_GROUPS * zone + product
}
