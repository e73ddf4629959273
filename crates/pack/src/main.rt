// Packs lines of numbers, as the dump program prints them, into records on standard output.
// A refused line gives `N line number` on standard error, and nothing of it is written.
#![tactic(auto)]

ghost use Rattle.std.specs.Prelude.{◌≤◌, length};
ghost use Rattle.record_layouts.specs.Layout.{longest_permitted};

use std::io::{self, Read, Write};
use std::process::ExitCode;
use text_stream::Window;

// Tells the refusal of a line.
fn refuse<W: Write>(refusals: &mut W, position: u64, number: u64) -> io::Result<()> {
    let mut text = [0u8; 64];
    let end = text_bill::refusal_line(position, number, &mut text, 0);
    refusals.write_all(&text[..end])
}

// Packs one line after another, up to the end.
// A failed read or write ends it with nothing more written. No contract can name what is read or written:
// what a line packs to is the contract of `text_record::pack`.
fn pack<R: Read, W: Write, E: Write>(
    input: &mut R,
    output: &mut W,
    refusals: &mut E,
    buffer: &mut [u8],
    out: &mut [u8],
) -> io::Result<()>
    requires { longest_permitted ≤ length out.old }
{
    let mut window = Window::new();
    let mut at = 0;
    let mut position = 1;
    // the line is too long for the buffer, and its start is passed
    let mut cut = false;
    // a turn for each line, or piece of one that is too long
    for _ in 1..u64::MAX {
        let line = text_stream::next_line(input, buffer, window)?;
        window = line.rest;
        if line.end == window.end && !window.ended {
            cut = true;
            continue;
        }
        if line.start == window.end && !cut {
            return text_stream::finish(output, out, at);
        }
        match text_record::pack(&buffer[line.start..line.end], cut, out, at) {
            Ok(end) => at = end,
            Err(refusal) => refuse(refusals, position, refusal.number())?,
        }
        at = text_stream::with_room(output, out, at, record_numbers::PERMITTED)?;
        cut = false;
        position += 1;
    }
    Err(io::Error::other("more lines than a position can count"))
}

fn main(rt: HostRuntime) -> ExitCode {
    let mut buffer = [0u8; 65536];
    let mut out = [0u8; 65536];
    text_stream::exit_code(pack(
        &mut rt.stdin(),
        &mut rt.stdout(),
        &mut rt.stderr(),
        &mut buffer,
        &mut out,
    ))
}
