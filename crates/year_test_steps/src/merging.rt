// A listing's entries put into a table of entries by registration.
ghost use Rattle.std.specs.Prelude.{◌≡◌, ◌+◌, ◌≤◌, ◌<◌, length};
ghost use Rattle.limits.specs.Limits.{registrations};
ghost use Rattle.year_cells.specs.Places.{entries_width, cell_count};
ghost use Rattle.year_test_steps.specs.Entered.{merged_at, merged, Entered};

use limits::REGISTRATIONS;
use year_cells::{Cells, LISTING_WIDTH, REDUCTIONS_IN, lay};

// The number at i of one part of a table, marks or reductions, after a listing: the listing's own where it lists i, else what stands there.
fn merged_at(
    year: &Cells,
    place: usize,
    listing: &[u64; LISTING_WIDTH],
    part: usize,
    i: usize,
) -> u64
    requires i_bound { place + i < cell_count }
    requires i_in_bounds { i < length listing.now }
    requires i_in_bounds_2 { part + i < length listing.now }
    ensures { result ≡ merged_at year.now place listing.now part i }
{
    if listing[i] != 0 {
        return listing[part + i];
    }
    year[place + i]
}

// Such a part after a listing, whole.
fn merge(
    year: &Cells,
    place: usize,
    listing: &[u64; LISTING_WIDTH],
    part: usize,
) -> [u64; REGISTRATIONS]
    requires registrations_bound { place + registrations ≤ cell_count }
    requires registrations_in_bounds { part + registrations ≤ length listing.now }
    ensures { result ≡ merged year.now place listing.now part }
{
    let mut entries = [0u64; REGISTRATIONS];
    for i in 0..REGISTRATIONS {
        entries[i] = merged_at(year, place, listing, part, i);
    }
    entries
}

// A listing's entries go into a table: marks, then reductions.
pub fn enter(year: &mut Cells, table: usize, listing: &[u64; LISTING_WIDTH])
    requires entries_width_bound { table + entries_width ≤ cell_count }
    ensures { Entered table listing.now year.old year.new }
{
    let marks = merge(year, table, listing, 0);
    let reductions = merge(year, table + REDUCTIONS_IN, listing, REDUCTIONS_IN);
    lay(year, table, &marks);
    lay(year, table + REDUCTIONS_IN, &reductions);
}
