// The bench program: reads a stand's description followed by events on standard input, and prints a
// line for each event. What it prints is what `transcript` is proved to write.
#![tactic(auto)]

use std::io;

fn main(rt: HostRuntime) -> io::Result<()> {
    let mut room = [0u8; input::ROOM];
    let n = input::read_full(&mut rt.reader(), &mut room)?;
    let mut out = [0u8; transcript::LONGEST];
    match transcript::transcript(&room[..n], &mut out) {
        None => Ok(()),
        Some(long) => rt.write_all(&out[..long]),
    }
}
