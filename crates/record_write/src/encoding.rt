// A record's numbers put into its bytes: head, lists and filling.
ghost use Rattle.std.specs.Prelude.{◌≡◌, length};
ghost use Rattle.bits.specs.Table.{total};
ghost use Rattle.bits_write.specs.Written.{written_bits};
ghost use Rattle.ids.specs.Ids.{at};
ghost use Rattle.record_layouts.specs.Layout.{head, widths, size_of};
ghost use Rattle.record_layouts.specs.Questions.{rules_by};
ghost use Rattle.record_numbers.specs.Parsing.{Writable};
ghost use Rattle.record_write.specs.Lists.{Lists};
ghost use Rattle.record_numbers.specs.Calls.{over, bytes_by};

use bits_write::Writer;
use record_layouts::{lists_of, part_at, widths_of_parts};
use record_shapes::list_at;

// The lists of a record, behind its head.
fn put_lists(head_end: Writer, kind: usize, numbers: &[u64], bytes: &mut [u8]) -> Writer
    requires kind_value { kind ≡ at numbers.now 0 }
    requires writable { Writable numbers.now (length bytes.old) }
    requires written { written_bits head_end ≡ total (widths (head kind)) }
    ensures { Lists numbers.now bytes.old bytes.new head_end result }
{
    let mut writer = head_end;
    for i in 0..lists_of(kind) {
        let list = list_at(kind, i, numbers);
        let ws = &widths_of_parts()[list.start..list.end];
        let items = &numbers[list.from..list.from + list.numbers];
        writer = writer.put_items(bytes, ws, list.items, items);
    }
    writer
}

// The bytes of a record that questions 1, 3 and 5 let pass, over the front of a buffer with room for them; how many they are.
pub fn put_record(kind: usize, numbers: &[u64], bytes: &mut [u8]) -> usize
    requires kind_value { kind ≡ at numbers.now 0 }
    requires writable { Writable numbers.now (length bytes.old) }
    ensures value { result ≡ size_of (rules_by numbers.now) }
    ensures bytes_after { bytes.new ≡ over (bytes_by numbers.now) bytes.old }
{
    let part = part_at(kind, 0);
    let ws = &widths_of_parts()[part.start..part.end];
    let head = Writer::new().put_all(bytes, ws, &numbers[..ws.len()]);
    put_lists(head, kind, numbers, bytes).finish(bytes)
}
