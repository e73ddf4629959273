// The numbers of a record's head and of its lists, taken out of its bytes by one cursor.
#![tactic(auto)]

ghost use Rattle.std.specs.Prelude.{◌≡◌, true, ◌≤◌, length, replicate};
ghost use Rattle.bits.specs.Table.{total, fields_at};
ghost use Rattle.record_layouts.specs.Layout.{head, widths, most_numbers};
ghost use Rattle.record_layouts.specs.Questions.{is_kind, is_whole, kind_of, head_numbers, rules_of, numbers_of, row};
ghost use Rattle.record_numbers.specs.Parsing.{Known};

use bits_read::{Cursor, Field, Items};
use record_layouts::{lists_of, part_at, widths_of_parts};
use record_shapes::list_at;

// The kind, 0 where there is no byte: no Option, as `Questions.kind_of` has it (what may not change: its clause).
pub fn kind_of(bytes: &[u8]) -> Field
    ensures { (result.value ≡ kind_of bytes.now) × (result.next.at ≡ 4) }
{
    let c = Cursor::first();
    if bytes.is_empty() {
        return c.field(0, 4);
    }
    c.read_field(bytes, 4)
}

// The numbers of the head, from its kind on, over the front of a row of zeros; the cursor behind it.
pub fn read_head(kind: Field, bytes: &[u8], values: &mut [u64]) -> Cursor
    requires of_bytes { kind.value ≡ kind_of bytes.now }
    requires behind_kind { kind.next.at ≡ 4 }
    requires known { is_kind kind.value ≡ true }
    requires zeros { values.old ≡ replicate most_numbers 0 }
    ensures ends { result.at ≡ total (widths (head kind.value)) }
    ensures filled { values.new ≡ row (fields_at bytes.now 0 (widths (head kind.value))) }
{
    let part = part_at(kind.value as usize, 0);
    let ws = &widths_of_parts()[part.start + 1..part.end];
    let bits = part.bits - kind.next.at;
    values[0] = kind.value;
    kind.next.read_fields(bytes, ws, bits, values, 1)
}

// The numbers of the lists, behind those of the head; the cursor behind them.
pub fn read_lists(head_end: Cursor, kind: usize, bytes: &[u8], values: &mut [u64]) -> Cursor
    requires known { Known bytes.now kind }
    requires whole { is_whole bytes.now ≡ true }
    requires few { length (rules_of bytes.now) ≤ most_numbers }
    requires behind_head { head_end.at ≡ total (widths (head kind)) }
    requires head_read { values.old ≡ row (head_numbers bytes.now) }
    ensures ends { result.at ≡ total (widths (rules_of bytes.now)) }
    ensures filled { values.new ≡ row (numbers_of bytes.now) }
{
    let mut cursor = head_end;
    for i in 0..lists_of(kind) {
        let list = list_at(kind, i, values);
        let ws = &widths_of_parts()[list.start..list.end];
        let items = Items {
            bits: list.bits,
            count: list.items,
        };
        cursor = cursor.read_items(bytes, ws, items, values, list.from);
    }
    cursor
}
