// Output gathered in a lent buffer and written in large pieces.
ghost use Rattle.std.specs.Prelude.{◌≡◌, ◌+◌, ◌≤◌, length, IsOk};
ghost use Rattle.text_stream.specs.Found.{found};
ghost use Rattle.text_stream.specs.Room.{place_for};

use crate::failed::Failed;
use std::io::{self, Write};

// Makes room for so many bytes more: where less is left, what is gathered is written. With room for the whole buffer all is written.
// Answers the place up to which output is gathered, that of a failed write with the error.
#[tactic(auto, unfolding(crate::specs::Room::place_for))]
pub fn with_room<W: Write>(
    output: &mut W,
    out: &[u8],
    at: usize,
    room: usize,
) -> Result<usize, Failed<usize>>
    requires at_in_bounds { at ≤ length out.now }
    requires room_in_bounds { room ≤ length out.now }
    ensures at_value { found result ≡ place_for room (length out.now) at }
    ensures leaves_room { found result + room ≤ length out.now }
    ensures gathers { at + room ≤ length out.now → IsOk result }
{
    if room <= out.len() - at {
        return Ok(at);
    }
    match output.write_all(&out[..at]) {
        Ok(()) => Ok(0),
        Err(error) => Err(Failed { found: 0, error }),
    }
}

// Writes all that is gathered.
pub fn finish<W: Write>(output: &mut W, out: &[u8], at: usize) -> io::Result<()>
    requires { at ≤ length out.now }
    ensures { at ≡ 0 → IsOk result }
{
    with_room(output, out, at, out.len())?;
    Ok(())
}
