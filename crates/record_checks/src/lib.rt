// Questions 1, 4 and 5, asked of a record's numbers and bytes.
#![tactic(auto)]

ghost use Rattle.std.specs.Prelude.{◌≡◌, ◌+◌, ◌-◌, ◌*◌, ◌^◌, ◌≤◌, ◌<◌, eqb, length};
ghost use Rattle.ids.specs.Ids.{at};
ghost use Rattle.bits.specs.Bits.{field_at};
ghost use Rattle.bits.specs.Pack.{bytes_for};
ghost use Rattle.record_layouts.specs.Layout.{rules_for};
ghost use Rattle.record_layouts.specs.Questions.{is_kind, rises, ids_rise};
ghost use Rattle.record_layouts.specs.Parts.{Stated};

use bits_read::Cursor;
use record_layouts::{lists_of, part_at};
use record_shapes::list_at;

mod limits;
mod permitted;

pub use permitted::{head_permitted, lists_permitted};

pub fn is_kind(kind: u64) -> bool
    ensures { result ≡ is_kind kind }
{
    if record_layouts::KINDS <= kind {
        return false;
    }
    let head = part_at(kind as usize, 0);
    head.start < head.end
}

// Do the ids of n items of so many fields rise strictly, from a place on? From place to place: ids stand some fields apart, so pairs of them by an iterator are no plainer.
fn rising(values: &[u64], fields: usize, from: usize, n: usize) -> bool
    requires le_fields { 1 ≤ fields }
    requires fields_in_bounds { from + n * fields ≤ length values.now }
    ensures { result ≡ rises values.now fields from n }
{
    if n == 0 {
        return true;
    }
    let mut p = from;
    for k in 1..n {
        let q = p + fields;
        if values[q] <= values[p] {
            return false;
        }
        p = q;
    }
    true
}

// Do the ids rise strictly in each list?
pub fn lists_rise(kind: usize, values: &[u64]) -> bool
    requires values_value { at values.now 0 ≡ kind }
    requires stated { Stated kind values.now }
    requires values_in_bounds { length (rules_for kind values.now) ≤ length values.now }
    ensures { result ≡ ids_rise values.now }
{
    for i in 0..lists_of(kind) {
        let list = list_at(kind, i, values);
        if !rising(values, list.end - list.start, list.from, list.items) {
            return false;
        }
    }
    true
}

// Are the bits from the cursor on zero up to the end of its byte?
pub fn is_filled(c: Cursor, bytes: &[u8]) -> bool
    requires at_in_bounds { bytes_for c.at ≤ length bytes.now }
    requires at_bound { c.at < 2 ^ 60 }
    ensures { result ≡ eqb (field_at bytes.now c.at (8 * bytes_for c.at - c.at)) 0 }
{
    let size = c.at.div_ceil(8);
    let left = 8 * size - c.at;
    if left == 0 {
        return true;
    }
    c.read_field(bytes, left).value == 0
}
