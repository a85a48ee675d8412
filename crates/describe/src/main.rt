// Reads a description on standard input and writes it back on standard output, without the events
// behind it: what comes back is the input's bytes up to where the description ended. A refused one
// is answered by "refused " and the number.
#![tactic(auto)]

ghost use Rattle.std.specs.Prelude.{◌≤◌, IfOk, length};

use refusal::Refusal;
use std::io;

// A description of 16 switches, 32 hosts and 64 links.
const LONGEST: usize = 945;

// What comes back, and how long it is.
fn answer(input: &[u8], out: &mut [u8]) -> Result<usize, Refusal>
    ensures { IfOk result (λ n. n ≤ length out.new) }
{
    let d = network::read(input)?;
    network::write(&d.network, out)
}

fn main(rt: HostRuntime) -> io::Result<()> {
    let mut room = [0u8; input::ROOM];
    let n = input::read_full(&mut rt.reader(), &mut room)?;
    let mut out = [0u8; LONGEST];
    match answer(&room[..n], &mut out) {
        Err(refusal) => println!(rt; "refused {refusal}"),
        Ok(long) => rt.write_all(&out[..long]),
    }
}
