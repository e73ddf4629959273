// Prints record files as text, a line for each record: its numbers in layout order, or `N position number` where it is refused.
// They come from standard input, or from the files that the arguments name, where `-` is standard input.
#![tactic(auto)]

ghost use Rattle.std.specs.Prelude.{◌≤◌, length};
ghost use Rattle.record_layouts.specs.Layout.{longest_record};
ghost use Rattle.text_record.specs.Line.{line_room};

use std::io::{self, Read, Write};
use std::process::ExitCode;
use text_stream::{TakesInput, Window};

// Prints one record after another, up to the end or a number that ends the file.
// A failed read or write ends it with nothing more written. No contract can name what is read or written: that
// the lines of what is at hand are the file's is a law of `text_record` (lines-first).
fn dump<R: Read, W: Write>(
    input: &mut R,
    output: &mut W,
    buffer: &mut [u8],
    out: &mut [u8],
) -> io::Result<()>
    requires longest_record_in_bounds { longest_record ≤ length buffer.old }
    requires line_room_in_bounds { line_room ≤ length out.old }
{
    let least = record_file::window();
    let mut window = Window::new();
    let mut at = 0;
    for position in 1..u64::MAX {
        window = text_stream::filled(input, buffer, window, least)?;
        if window.start == window.end {
            return text_stream::finish(output, out, at);
        }
        let printed = text_record::print(position, &buffer[window.start..window.end], out, at);
        at = text_stream::with_room(output, out, printed.at, text_record::ROOM)?;
        let last = match printed.refusal {
            Some(refusal) => record_file::ends(refusal.number()),
            None => false,
        };
        window = window.behind(printed.used, last);
    }
    Err(io::Error::other("more records than a position can count"))
}

struct Dumping;

impl TakesInput for Dumping {
    // Prints one input, through buffers of its own.
    fn take<P: Print, R: Read>(&self, rt: &P, input: &mut R) -> io::Result<()> {
        let mut buffer = [0u8; 65536];
        let mut out = [0u8; 65536];
        dump(input, &mut io::writer(rt), &mut buffer, &mut out)
    }
}

fn main(rt: HostRuntime) -> ExitCode {
    text_stream::exit_code(text_stream::each_input(&rt, &Dumping))
}
