// What several kinds of answers print: bytes, a header, and where a buffer differs.
use crate::token::Output;
use frame::Header;
use refusal::Refusal;
use std::{fmt, io};

const PIECE: usize = 10;

// Two hex digits a byte.
#[derive(Clone, Copy)]
struct Hex<'a>(&'a [u8]);

impl fmt::Display for Hex<'_> {
    fn fmt<W: fmt::Write>(&self, f: &mut fmt::Formatter<W>) -> fmt::Result {
        for b in self.0 {
            write!(f, "{b:02x}")?;
        }
        Ok(())
    }
}

// A header's flags, hop count and nonce.
#[derive(Clone, Copy)]
pub(crate) struct Fields(pub Header);

impl fmt::Display for Fields {
    fn fmt<W: fmt::Write>(&self, f: &mut fmt::Formatter<W>) -> fmt::Result {
        let h = self.0;
        write!(f, "{} {} {} {}", h.l as u8, h.f as u8, h.hc, h.nonce)
    }
}

pub(crate) fn unreadable(rt: &impl Print) -> io::Result<()> {
    println!(rt; "unreadable")
}

pub(crate) fn refused(rt: &impl Print, why: Refusal) -> io::Result<()> {
    println!(rt; "refused {why}")
}

// A line for each piece that isn't as before.
pub(crate) fn differing(
    rt: &impl Print,
    name: &str,
    before: &[u8],
    after: &[u8],
) -> io::Result<()> {
    // As long as the other, so that a last piece that is shorter is compared with one as short.
    let before = &before[..before.len().min(after.len())];
    let pieces = before.chunks(PIECE).zip(after.chunks(PIECE));
    for (i, (old, new)) in pieces.enumerate() {
        if old != new {
            println!(rt; "{name} {i} {}", Hex(new))?;
        }
    }
    Ok(())
}

// What an output holds after a call.
pub(crate) fn output(rt: &impl Print, before: Output, after: &[u8]) -> io::Result<()> {
    println!(rt; "out {}", after.len())?;
    differing(rt, "piece", before.bytes().all(), after)
}
