// What is asked of one registration by its terms, and is it among those of the year that are meant?
#![tactic(auto)]

mod conditions;
mod selections;

pub use conditions::meets;
pub use selections::is_selected;

mod test_entries;

// Enums and no closures: `Meets.fulfils` and `Selects.selects` speak of their cases (what may not change).

// What may be asked of a registration's terms (specs/Meets.antt): is it known and in an area; known and of a zone and
// product; a seller's; may its product be called in a month and period?
#[derive(Clone, Copy)]
pub enum Condition {
    InArea(u64),
    InGroup(u64, u64),
    OfSeller(u64),
    Callable(u64, u64),
}

// Which registrations of a year are meant (specs/Selects.antt): those that are known; those of a zone and product that
// no accepted event lists; and, of the test of a group, a seller's entries, those of them that failed, those that are
// retested.
#[derive(Clone, Copy)]
pub enum Selection {
    Known,
    Undispatched(u64, u64),
    Tested(u64, u64),
    Failed(u64, u64),
    Retested(u64, u64),
}
