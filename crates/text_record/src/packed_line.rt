// A line of text as a record.
ghost use Rattle.std.specs.Prelude.{◌≡◌, ◌+◌, ◌≤◌, length};
ghost use Rattle.record_layouts.specs.Layout.{longest_permitted};
ghost use Rattle.refusals.specs.Numbers.{answered};
ghost use Rattle.text.specs.Pasted.{Pasted};
ghost use Rattle.text_record.specs.Packs.{line_number, line_record, behind};

use refusals::Refusal;

// The most numbers of a record and one more, so that writing refuses the count of a longer line.
const NUMBERS: usize = record_numbers::NUMBERS + 1;

// Packs a line into its record; answers the place after it. A line of which the start is cut off is longer than any record's, and is refused.
// `cut` is a flag, as `line_number` and `line_record` speak of both (what may not change).
pub fn pack(line: &[u8], cut: bool, out: &mut [u8], at: usize) -> Result<usize, Refusal>
    requires { at + longest_permitted ≤ length out.old }
    ensures number_value { answered result ≡ line_number cut line.now }
    ensures pasted { Pasted out.old out.new at (line_record cut line.now) (behind at result) }
{
    if cut {
        return Err(Refusal::OutOfLimits);
    }
    let mut numbers = [0u64; NUMBERS];
    let n = text::decimals(line, &mut numbers);
    // a `match` and no `?`: so an edit of one arm (refused_line_accepted) shows that a refused line has its number
    match record_write::write(&numbers[..n], &mut out[at..]) {
        Ok(used) => Ok(at + used),
        Err(refusal) => Err(refusal),
    }
}
