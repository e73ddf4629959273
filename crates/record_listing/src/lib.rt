// What a record lists, as a row by id: marks and reductions by registration, deficits by seller, then second reductions.
#![tactic(auto)]

ghost use Rattle.std.specs.Prelude.{◌≡◌, ◌+◌, ◌<◌, length, replicate};
ghost use Rattle.ids.specs.Ids.{at};
ghost use Rattle.year_cells.specs.Places.{listing_width};
ghost use Rattle.record_layouts.specs.Layout.{lists, most_numbers};
ghost use Rattle.record_heads.specs.Record.{listing_to, listing_in};
ghost use Rattle.record_listing.specs.Listed.{Permitted};
ghost use Rattle.record_listing.specs.Spread.{Spreads};

use record_layouts::{lists_of, part_at};
use record_shapes::list_at;
use year_cells::{DEFICITS_IN, LISTING_WIDTH, REDUCTIONS_IN, SECOND_IN};

// List i of a record: its items go into the row, as entries or as deficits.
fn spread_list(values: &[u64], i: usize, row: &mut [u64; LISTING_WIDTH])
    requires values_len { length values.now ≡ most_numbers }
    requires permitted { Permitted values.now }
    requires i_in_bounds { i < length (lists (at values.now 0)) }
    requires spreads { Spreads (listing_to (at values.now 0) values.now i) row.old }
    ensures { let vs = values.now in Spreads (listing_to (at vs 0) vs (i + 1)) row.new }
{
    let kind = values[0] as usize;
    let list = list_at(kind, i, values);
    let part = part_at(kind, i + 1);
    let items = &values[list.from..list.from + list.numbers];
    for item in items.chunks_exact(part.end - part.start) {
        let id = item[0] as usize;
        if part.reduction == 0 {
            row[DEFICITS_IN + id] = item[1];
        } else {
            row[id] = 1;
            row[REDUCTIONS_IN + id] = item[part.reduction];
        }
        if part.second != 0 {
            row[SECOND_IN + id] = item[part.second];
        }
    }
}

// What a record lists goes into a row of zeros, list by list.
pub fn spread(values: &[u64], row: &mut [u64; LISTING_WIDTH])
    requires values_len { length values.now ≡ most_numbers }
    requires permitted { Permitted values.now }
    requires row_value { row.old ≡ replicate listing_width 0 }
    ensures { Spreads (listing_in values.now) row.new }
{
    for i in 0..lists_of(values[0] as usize) {
        spread_list(values, i, row);
    }
}
