// Question 3, asked of the numbers of a record's head and of its lists.
ghost use Rattle.std.specs.Prelude.{◌≡◌, true, ◌≤◌, ◌<◌, length};
ghost use Rattle.bits.specs.Table.{Valid};
ghost use Rattle.record_layouts.specs.Layout.{layouts, head, rules_for, widths};
ghost use Rattle.record_layouts.specs.Questions.{permitted};
ghost use Rattle.record_layouts.specs.Parts.{Stated};

use crate::limits::{Row, are_within, items_within};
use record_layouts::{highs_of_parts, lists_of, lows_of_parts, part_at, widths_of_parts};
use record_shapes::list_at;

// Is each number of the head permitted?
pub fn head_permitted(kind: usize, values: &[u64]) -> bool
    requires kind_in_bounds { kind < length layouts }
    requires kind_in_bounds_2 { length (head kind) ≤ length values.now }
    ensures { result ≡ permitted (head kind) values.now }
{
    let head = part_at(kind, 0);
    let lows = &lows_of_parts()[head.start..head.end];
    let highs = &highs_of_parts()[head.start..head.end];
    are_within(lows, highs, values)
}

// With a permitted head, is each number permitted? It is told whether they were read from bits: two functions
// in place of the flag would say every clause twice.
pub fn lists_permitted(kind: usize, read: bool, values: &[u64]) -> bool
    requires stated { Stated kind values.now }
    requires values_in_bounds { length (rules_for kind values.now) ≤ length values.now }
    requires values_value { permitted (head kind) values.now ≡ true }
    requires valid { read ≡ true → Valid (widths (rules_for kind values.now)) values.now }
    ensures { result ≡ permitted (rules_for kind values.now) values.now }
{
    for i in 0..lists_of(kind) {
        let list = list_at(kind, i, values);
        let widths = &widths_of_parts()[list.start..list.end];
        let lows = &lows_of_parts()[list.start..list.end];
        let highs = &highs_of_parts()[list.start..list.end];
        let row = Row {
            from: list.from,
            n: list.items,
        };
        if !items_within(read, widths, lows, highs, values, row) {
            return false;
        }
    }
    true
}
