// A head's switch: read, stepped, printed.
use crate::Call;
use crate::print::{self, Fields};
use crate::token::{Bytes, FILTER, FRAME, Filter, Output, Token, Tokens};
use head::Switch;
use rules::{Setup, Verdict, letter_of, sent_by};
use std::{fmt, io};
use table::Table;

#[derive(Clone, Copy)]
pub(crate) struct Step {
    switch: Switch,
    filter: Filter,
    port: u8,
    frame: Bytes<FRAME>,
    output: Output,
}

// The verdict's letter, and the mask and header of what is sent.
#[derive(Clone, Copy)]
pub(crate) struct Sent(pub Verdict);

impl fmt::Display for Sent {
    fn fmt<W: fmt::Write>(&self, f: &mut fmt::Formatter<W>) -> fmt::Result {
        let letter = char::from(letter_of(self.0));
        let sent = sent_by(self.0);
        write!(f, "{letter} {:04x} {}", sent.mask, Fields(sent.header))
    }
}

impl Token for Setup {
    fn read(line: &mut Tokens<'_>) -> Option<Setup> {
        Some(Setup {
            ports: line.read()?,
            live: line.read()?,
            host: line.read()?,
            limit: line.read()?,
            salt: line.read()?,
        })
    }
}

// So many slots, each behind its index.
impl Token for Table {
    fn read(line: &mut Tokens<'_>) -> Option<Table> {
        let mut table = Table::empty();
        for _ in 0..line.at_most(Table::SLOTS)? {
            let i = line.index(Table::SLOTS)?;
            table.addresses[i] = line.read()?;
            table.ports[i] = line.read()?;
            table.hops[i] = line.read()?;
        }
        Some(table)
    }
}

impl Token for Switch {
    fn read(line: &mut Tokens<'_>) -> Option<Switch> {
        Some(Switch {
            setup: line.read()?,
            nonce: line.read()?,
            table: line.read()?,
        })
    }
}

impl Token for Step {
    fn read(line: &mut Tokens<'_>) -> Option<Step> {
        Some(Step {
            switch: line.read()?,
            filter: line.read()?,
            port: line.read()?,
            frame: line.read()?,
            output: line.read()?,
        })
    }
}

// The slots that aren't all zeros.
fn print_table(rt: &impl Print, t: &Table) -> io::Result<()> {
    for i in 0..Table::SLOTS {
        let (address, port, hops) = (t.addresses[i], t.ports[i], t.hops[i]);
        if address != 0 || port != 0 || hops != 0 {
            println!(rt; "slot {i} {address:016x} {port} {hops}")?;
        }
    }
    Ok(())
}

pub(crate) fn print_head(rt: &impl Print, switch: &Switch) -> io::Result<()> {
    let s = switch.setup;
    println!(rt;
        "head {} {:04x} {:04x} {} {:08x} {}",
        s.ports, s.live, s.host, s.limit, s.salt, switch.nonce
    )?;
    print_table(rt, &switch.table)
}

pub(crate) fn print_filter(rt: &impl Print, filter: &[u8]) -> io::Result<()> {
    println!(rt; "filter {}", filter.len())?;
    print::differing(rt, "cell", &[0; FILTER], filter)
}

// What a step left is printed after a refusal too.
impl Call for Step {
    fn answer<P: Print>(self, rt: &P) -> io::Result<()> {
        let mut switch = self.switch;
        let Filter(mut filter) = self.filter;
        let mut out = self.output.bytes();
        match switch.step(filter.all_mut(), self.port, self.frame.all(), out.all_mut()) {
            Ok(r) => println!(rt;
                "step {} {} {}",
                Sent(r.verdict),
                r.full as u8,
                r.overwrote as u8
            )?,
            Err(why) => print::refused(rt, why)?,
        }
        print_head(rt, &switch)?;
        print_filter(rt, filter.all())?;
        print::output(rt, self.output, out.all())
    }
}
