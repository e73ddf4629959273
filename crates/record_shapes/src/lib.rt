// How many fields and bits a record has, by the counts among its numbers.
#![tactic(auto)]

ghost use Rattle.std.specs.Prelude.{◌≡◌, ◌*◌, ◌≤◌, ◌<◌, length};
ghost use Rattle.bits.specs.Pack.{bytes_for};
ghost use Rattle.record_layouts.specs.Layout.{layouts, head, lists, place_of, rules_for, longest_record};
ghost use Rattle.record_layouts.specs.Parts.{Stated};
ghost use Rattle.record_shapes.specs.Shapes.{Listed, Shaped};

use record_layouts::{lists_of, part_at};

// A list of a record: where the tables have the fields of an item, from start up to end, and the bits that they take; how many items it has, how many numbers these are, and from which place among the record's numbers on they stand.
#[derive(Clone, Copy)]
pub struct ItemList {
    pub start: usize,
    pub end: usize,
    pub bits: usize,
    pub items: usize,
    pub numbers: usize,
    pub from: usize,
}

// How many fields a record has, and how many bits they take.
#[derive(Clone, Copy)]
pub struct Shape {
    pub count: usize,
    pub bits: usize,
}

// The fields of a kind's head.
pub fn head_of(kind: usize) -> usize
    requires { kind < length layouts }
    ensures { result ≡ length (head kind) }
{
    let head = part_at(kind, 0);
    head.end - head.start
}

// List i, by its count among the numbers, where it stands from a place on.
fn list_from(kind: usize, i: usize, values: &[u64], from: usize) -> ItemList
    requires stated { Stated kind values.now }
    requires i_in_bounds { i < length (lists kind) }
    requires from_value { from ≡ place_of kind values.now i }
    ensures { Listed kind values.now i result }
{
    let part = part_at(kind, i + 1);
    let place = part.count;
    let items = values[place] as usize;
    let numbers = items * (part.end - part.start);
    ItemList {
        start: part.start,
        end: part.end,
        bits: part.bits,
        items,
        numbers,
        from,
    }
}

// List i, by the counts among the numbers: it stands behind the head and the lists before it.
pub fn list_at(kind: usize, i: usize, values: &[u64]) -> ItemList
    requires stated { Stated kind values.now }
    requires i_in_bounds { i < length (lists kind) }
    ensures { Listed kind values.now i result }
{
    let mut from = head_of(kind);
    for j in 0..i {
        from += list_from(kind, j, values, from).numbers;
    }
    list_from(kind, i, values, from)
}

// The shape that a head's numbers state.
pub fn shape_of(kind: usize, values: &[u64]) -> Shape
    requires { Stated kind values.now }
    ensures { Shaped (rules_for kind values.now) result }
{
    let head = part_at(kind, 0);
    let mut shape = Shape {
        count: head.end - head.start,
        bits: head.bits,
    };
    for i in 0..lists_of(kind) {
        let list = list_from(kind, i, values, shape.count);
        shape.count += list.numbers;
        shape.bits += list.items * list.bits;
    }
    shape
}

// The bytes of a record of the shape.
pub fn size_of(s: Shape) -> usize
    requires { s.bits ≤ 8 * longest_record }
    ensures { result ≡ bytes_for s.bits }
{
    s.bits.div_ceil(8)
}
