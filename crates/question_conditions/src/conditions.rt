// What is asked of one registration by its terms.
ghost use Rattle.std.specs.Prelude.{◌≡◌, ◌&&◌, ◌<◌, eqb};
ghost use Rattle.limits.specs.Limits.{registrations};
ghost use Rattle.year_cells.specs.Layout.{year_in};
ghost use Rattle.question_conditions.specs.Meets.{fulfils};

use crate::Condition;
use year::Registration;
use year_cells::Cells;

// Is a registration known, and of a zone and product?
pub fn in_group(r: Registration, zone: u64, product: u64) -> bool
    ensures { result ≡ (r.known && (eqb r.zone zone && eqb r.product product)) }
{
    r.known && (r.zone == zone && r.product == product)
}

// Does a registration meet the condition? (It holds `units::Nominated` kilowatts, which none asks for.)
pub fn meets(year: &Cells, i: usize, condition: Condition) -> bool
    requires { i < registrations }
    ensures { result ≡ fulfils (year_in year.now) condition i }
{
    let r = year_cells::registration_at(year, i);
    match condition {
        Condition::InArea(area) => r.known && r.area == area,
        Condition::InGroup(zone, product) => in_group(r, zone, product),
        Condition::OfSeller(seller) => r.seller == seller,
        Condition::Callable(month, period) => calendar::callable(r.product, month, period),
    }
}
