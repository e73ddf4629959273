// The walk of a record file: record after record, up to an answer that ends it, or to the end of the bytes.
#![tactic(auto)]

ghost use Rattle.std.specs.Prelude.{◌≡◌};
ghost use Rattle.record_layouts.specs.Layout.{longest_record};
ghost use Rattle.record_file.specs.Walk.{ends};

// Does this number end a file? Of any number, 0 too, as `Walk.ends` is (what may not change: its clause).
pub fn ends(number: u64) -> bool
    ensures { result ≡ ends number }
{
    number == 1 || number == 2
}

// The bytes that a window on a file has at least, until its end: those of the longest record, by its counts as written. A function, since a
// clause ties it to `longest_record`.
pub fn window() -> usize
    ensures { result ≡ longest_record }
{
    731
}
