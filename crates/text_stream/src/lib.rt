// Input in pieces through a lent buffer. What is still to be taken of it is moved to the front, so that a record or a line across two pieces is read as one.
#![tactic(auto)]

ghost use Rattle.std.specs.Prelude.{◌≡◌, ◌+◌, ◌≤◌, length, take, IfOk};
ghost use Rattle.text.specs.Find.{Ends};
ghost use Rattle.text_stream.specs.Filled.{Filled, LineWithin};
ghost use Rattle.text_stream.specs.Found.{found};

mod arguments;
mod failed;
mod output;
mod window;

pub use arguments::{TakesInput, each_input, exit_code};
pub use failed::Failed;
pub use output::{finish, with_room};
use std::io::{self, Read};
pub use window::Window;

// Reads until the window has at least so many bytes, or the input ends; answers the window, that of a failed read with the error.
pub fn filled<R: Read>(
    input: &mut R,
    buffer: &mut [u8],
    window: Window,
    least: usize,
) -> Result<Window, Failed<Window>>
    requires end_in_bounds { window.end ≤ length buffer.old }
    requires least_in_bounds { least ≤ length buffer.old }
    ensures { Filled buffer.old buffer.new window least (found result) }
{
    if window.ended || least <= window.end - window.start {
        return Ok(window);
    }
    buffer.copy_within(window.start..window.end, 0);
    let mut end = window.end - window.start;
    while end < least {
        let last = Window {
            start: 0,
            end,
            ended: true,
        };
        match read_behind(input, buffer, end) {
            Ok(0) => return Ok(last),
            Ok(count) => end += count,
            Err(error) => return Err(Failed { found: last, error }),
        }
    }
    Ok(Window {
        start: 0,
        end,
        ended: false,
    })
}

// Reads once behind what is there; answers how many bytes came, none at the end.
fn read_behind<R: Read>(input: &mut R, buffer: &mut [u8], end: usize) -> io::Result<usize>
    requires { end ≤ length buffer.old }
    ensures within { IfOk result (λ count. end + count ≤ length buffer.old) }
    ensures buffer_unchanged { take end buffer.new ≡ take end buffer.old }
{
    input.read(&mut buffer[end..])
}

// Where a line stands, and the window behind it and its newline.
#[derive(Clone, Copy)]
pub struct Line {
    pub start: usize,
    pub end: usize,
    pub rest: Window,
}

// Finds the next line, up to its newline, or to the window's end where the input ends, a read fails or the buffer is full before.
// Answers the line, that of a failed read with the error.
pub fn next_line<R: Read>(
    input: &mut R,
    buffer: &mut [u8],
    window: Window,
) -> Result<Line, Failed<Line>>
    requires { window.end ≤ length buffer.old }
    ensures line_within { LineWithin buffer.old (found result) }
    ensures ends { Ends (take (found result).rest.end buffer.new) (found result).start 10 (found result).end }
{
    let line = line_in(buffer, window);
    if line.end < window.end {
        return Ok(line);
    }
    let size = buffer.len();
    match filled(input, buffer, window, size) {
        Ok(more) => Ok(line_in(buffer, more)),
        Err(failed) => Err(Failed {
            found: line_in(buffer, failed.found),
            error: failed.error,
        }),
    }
}

// The line at a window's start.
fn line_in(buffer: &[u8], window: Window) -> Line
    requires { window.end ≤ length buffer.now }
    ensures line_within { LineWithin buffer.now result }
    ensures ends { Ends (take window.end buffer.now) result.start 10 result.end }
    ensures same_end { result.rest.end ≡ window.end }
{
    let end = text::find(&buffer[..window.end], window.start, b'\n');
    Line {
        start: window.start,
        end,
        rest: Window {
            start: window.end.min(end.saturating_add(1)),
            end: window.end,
            ended: window.ended,
        },
    }
}
