// Bills record files, each from a new book: standard input, or the files that the arguments name, where `-` is standard input.
#![tactic(auto)]

ghost use Rattle.std.specs.Prelude.{◌≤◌, length};
ghost use Rattle.text_bill.specs.Text.{room};
ghost use Rattle.record_layouts.specs.Layout.{longest_record};

use bill_step::Course;
use std::io::{self, Read, Write};
use std::process::ExitCode;
use text_stream::{TakesInput, Window};

// Bills one record after another, up to the end or a number that ends the file.
// The year goes from record to record, a `year_cells::YearCells`.
// A failed read or write ends it with nothing more written. No contract can name what is read or written: that
// each step on what is at hand prints the file's bill is a law of `bill_step` (text-first).
// (dump's loop has this shape: as one function it would take the step as a closure, whose clauses are as long as both loops.)
fn bill<R: Read, W: Write>(
    input: &mut R,
    output: &mut W,
    buffer: &mut [u8],
    out: &mut [u8],
) -> io::Result<()>
    requires longest_record_in_bounds { longest_record ≤ length buffer.old }
    requires room_in_bounds { room ≤ length out.old }
{
    let mut statement = [0u8; text_bill::STATEMENT];
    let mut year = book::new_book();
    let least = record_file::window();
    let mut window = Window::new();
    let mut course = Course { position: 1, at: 0 };
    // a turn for each record
    for _ in 1..u64::MAX {
        window = text_stream::filled(input, buffer, window, least)?;
        if window.start == window.end {
            return text_stream::finish(output, out, course.at);
        }
        let bytes = &buffer[window.start..window.end];
        let answered = bill_step::step(&mut year, course, bytes, &mut statement, out);
        course = answered.next;
        course.at = text_stream::with_room(output, out, course.at, text_bill::ROOM)?;
        window = match answered.posted {
            Ok(posted) => window.behind(posted.used, false),
            Err(refused) => window.behind(
                refused.used,
                record_file::ends(refused.refusal.number()),
            ),
        };
    }
    Err(io::Error::other("more records than a position can count"))
}

struct Billing;

impl TakesInput for Billing {
    // Bills one input, through buffers of its own.
    fn take<P: Print, R: Read>(&self, rt: &P, input: &mut R) -> io::Result<()> {
        let mut buffer = [0u8; 65536];
        let mut out = [0u8; 65536];
        bill(input, &mut io::writer(rt), &mut buffer, &mut out)
    }
}

fn main(rt: HostRuntime) -> ExitCode {
    text_stream::exit_code(text_stream::each_input(&rt, &Billing))
}
