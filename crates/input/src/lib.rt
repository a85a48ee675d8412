// What a program reads of its input: as much as it has room for. The bench program and the one that
// writes a description back take theirs by it.
#![tactic(auto)]

ghost use Rattle.std.specs.Io.KnownBytes.{Consumes, IsAtEnd};
ghost use Rattle.std.specs.Prelude.{◌<◌, ◌≤◌, IfOk, length, take};

use std::io::{self, Read};

// One byte more than the longest input, so that a longer one is refused and not cut.
pub const ROOM: usize = 60_001;

// Reads until the room is full or the input has ended, and says how many bytes came. Each turn but
// the last brings some, so there are enough turns.
pub fn read_full<R: Read>(reader: &mut R, room: &mut [u8]) -> io::Result<usize>
    ensures within { IfOk result (λ n. n ≤ length room.new) }
    ensures bytes { IfOk result (λ n. Consumes (R.remaining reader.old) (R.remaining reader.new) (take n room.new)) }
    ensures all { IfOk result (λ n. n < length room.new → IsAtEnd (R.remaining reader.new)) }
{
    let mut n = 0;
    for _turn in 0..room.len() {
        let more = reader.read(&mut room[n..])?;
        if more == 0 {
            return Ok(n);
        }
        n += more;
    }
    Ok(n)
}
