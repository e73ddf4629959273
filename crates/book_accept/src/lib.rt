// What an accepted record does: it changes the year, and a close leaves its statement.
#![tactic(auto)]

ghost use Rattle.std.specs.Prelude.{◌≡◌, true, ◌≤◌, length};
ghost use Rattle.ids.specs.Ids.{at};
ghost use Rattle.limits.specs.Limits.{nominated_limit};
ghost use Rattle.question_list.specs.Questions.{q16};
ghost use Rattle.year_cells.specs.Layout.{listing_at, year_in};
ghost use Rattle.book_recorded.specs.After.{registration_of};
ghost use Rattle.book_accept.specs.Leaves.{year_by_row, buffer_by, written_by};
ghost use Rattle.book_accept.specs.Suits.{Suits};

use crate::month_end::close_month;
use record_heads::{Head, RegistrationHead};
use units::{Kilowatts, Nominated};
use year::Registration;
use year_cells::{LISTING_WIDTH, YearCells};

mod month_end;

// The registration that a registration record makes. (No `From`: it cannot ask that `committed` is within its limit.)
fn registration_of(r: RegistrationHead) -> Registration
    requires { r.committed ≤ nominated_limit }
    ensures { result ≡ registration_of r }
{
    let committed = Nominated::new(r.committed);
    Registration {
        known: true,
        seller: r.seller,
        area: r.area,
        zone: r.zone,
        product: r.product,
        committed,
        rate: r.rate,
    }
}

// Changes the year by an accepted record; a close leaves its statement in the buffer. Answers the statement's bytes, 0 of any other kind.
pub fn accept(
    year: &mut YearCells,
    head: Head,
    listing: &[u64; LISTING_WIDTH],
    buffer: &mut [u8],
) -> usize
    requires suits { Suits (year_in year.old.cells) (listing_at (at listing.now)) head }
    requires head_value { q16 (length buffer.old) head ≡ true }
    ensures equals { year_in year.new.cells ≡ year_by_row year.old.cells listing.now head }
    ensures leaves { buffer.new ≡ buffer_by (year_in year.old.cells) head buffer.old }
    ensures writes { result ≡ written_by (year_in year.old.cells) head }
{
    match head {
        Head::Opening(o) => {
            year_steps::add_opening(year, o.leap, o.factor, o.requirement);
            0
        }
        Head::Registration(r) => {
            let registration = registration_of(r);
            year_steps::add_registration(year, r.id as usize, registration);
            0
        }
        Head::Lse(j) => {
            year_steps::add_lse(year, j.id as usize, j.obligation);
            0
        }
        Head::Event(e) => {
            year_steps::add_event(year, e, listing);
            0
        }
        Head::Test(t) => {
            let group = year::group_of(t.zone, t.product);
            year_test_steps::add_test(year, group as usize, t.month, listing);
            0
        }
        Head::Close(c) => close_month(year, c.month, buffer),
        Head::Clearing(c) => {
            year_steps::add_clearing(year, c.registration as usize, c.price, c.kw);
            0
        }
        Head::Retest(_) => {
            year_test_steps::add_retest(year, listing);
            0
        }
    }
}
