// Tests over what a record lists, its listing a row by id (year_cells.Places).
#![tactic(auto)]

ghost use Rattle.std.specs.Prelude.{◌≡◌, ◌<◌};
ghost use Rattle.ids.specs.Ids.{at};
ghost use Rattle.limits.specs.Limits.{registrations};
ghost use Rattle.year_cells.specs.Layout.{listing_at, year_in};
ghost use Rattle.question_conditions.specs.Entries.{deficits_listed};
ghost use Rattle.question_listings.specs.Asked.{passes_at, every_entry, sellers_with_entries, entries_pass, lists_selected};

use limits::{REGISTRATIONS, SELLERS};
use question_conditions::{Condition, Selection, is_selected, meets};
use year_cells::{DEFICITS_IN, LISTING_WIDTH, YearCells};

mod registrations;

pub use registrations::{any_lse, any_selected, committed_kw};

// Does a registration meet the condition, if it is listed?
fn passes(year: &YearCells, listing: &[u64; LISTING_WIDTH], condition: Condition, i: usize) -> bool
    requires i_lt_registrations { i < registrations }
    ensures { result ≡ passes_at (year_in year.now.cells) (listing_at (at listing.now)) condition i }
{
    if listing[i] == 0 {
        return true;
    }
    meets(&year.cells, i, condition)
}

// Does every listed registration meet the condition?
pub fn every_listed(year: &YearCells, listing: &[u64; LISTING_WIDTH], condition: Condition) -> bool
    ensures { result ≡ every_entry (year_in year.now.cells) (listing_at (at listing.now)) condition }
{
    (0..REGISTRATIONS).all(|i| passes(year, listing, condition, i))
}

// For each seller: has it an entry? By index, since it is read in two rows and written by seller: a chain is no plainer.
fn sellers_listed(year: &YearCells, listing: &[u64; LISTING_WIDTH]) -> [bool; SELLERS]
    ensures { result ≡ sellers_with_entries (year_in year.now.cells) (listing_at (at listing.now)) }
{
    let mut sellers = [false; SELLERS];
    for i in 0..REGISTRATIONS {
        if listing[i] != 0 {
            let r = year_cells::registration_at(&year.cells, i);
            let s = r.seller as usize;
            sellers[s] = true;
        }
    }
    sellers
}

// Has every deficit's seller an entry?
fn deficits_listed(year: &YearCells, listing: &[u64; LISTING_WIDTH]) -> bool
    ensures { result ≡ deficits_listed (year_in year.now.cells).terms (listing_at (at listing.now)) }
{
    let sellers = sellers_listed(year, listing);
    (0..SELLERS).all(|s| listing[DEFICITS_IN + s] == 0 || sellers[s])
}

// Does every listed registration meet the condition, and has every deficit's seller an entry?
pub fn entries_pass(year: &YearCells, listing: &[u64; LISTING_WIDTH], condition: Condition) -> bool
    ensures { result ≡ entries_pass (year_in year.now.cells) (listing_at (at listing.now)) condition }
{
    every_listed(year, listing, condition) && deficits_listed(year, listing)
}

// Are exactly those listed that are selected?
pub fn lists_exactly(year: &YearCells, listing: &[u64; LISTING_WIDTH], selection: Selection) -> bool
    ensures { result ≡ lists_selected (year_in year.now.cells) (listing_at (at listing.now)) selection }
{
    (0..REGISTRATIONS).all(|i| (listing[i] != 0) == is_selected(year, i, selection))
}
