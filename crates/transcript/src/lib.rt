// What the bench program prints, as one function from an input to a lent buffer.
//
// A run tests nothing that it has proved: the bench that a description gives is in shape, and every
// event keeps it so. It keeps a stand's heads, link states and copies in the locals of one loop, and
// lends an event the head whose turn it is. A head's masks are worked out from the links' states when
// its turn comes; in between nothing holds them.
#![tactic(auto)]

ghost use Rattle.std.specs.Prelude.{◌≤◌, IfSome, length};
ghost use Rattle.transcript.specs.Transcript.{Prints};

mod running;

use cabling::Stand;

// The longest transcript: 12,000 lines of 26 bytes, and "stop 20".
pub const LONGEST: usize = 312_008;

// Writes the transcript of an input to the output's start, and says how many bytes it has; none into
// an output that could be too short.
pub fn transcript(input: &[u8], out: &mut [u8]) -> Option<usize>
    ensures prints { Prints input.now out.old result out.new }
    ensures within { IfSome result (λ n. n ≤ length out.new) }
{
    if out.len() < LONGEST {
        return None;
    }
    match network::read(input) {
        Err(refusal) => Some(lines::put_refused(out, 0, refusal.number())),
        Ok(d) => Some(running::run(&Stand::new(d.network), input, d.end, out)),
    }
}
