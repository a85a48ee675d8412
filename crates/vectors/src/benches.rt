// A bench: read, made afresh, acted on by an event, printed.
use crate::Call;
use crate::heads::{Sent, print_filter, print_head};
use crate::print::{self, Fields};
use crate::stands::print_network;
use crate::token::{Token, Tokens};
use bench::Bench;
use cabling::End;
use counters::Counters;
use event::{Address, Event, Presented, Setting};
use flight::Copy;
use network::Network;
use rules::Setup;
use seat::Seat;
use std::io;
use turn::Done;

#[derive(Clone, Copy)]
pub(crate) struct Fresh {
    network: Network,
}

#[derive(Clone, Copy)]
pub(crate) struct Happening {
    bench: Bench,
    counters: Counters,
    event: Event,
}

impl Token for Seat {
    fn read(line: &mut Tokens<'_>) -> Option<Seat> {
        let switch = line.read()?;
        let mut cells = [0; Seat::CELLS];
        line.exactly(Seat::CELLS as u64)?;
        line.pieces(&mut cells)?;
        Some(Seat { switch, cells })
    }
}

impl Token for Copy {
    fn read(line: &mut Tokens<'_>) -> Option<Copy> {
        Some(Copy {
            link: line.read()?,
            second: line.read()?,
            source: line.read()?,
            destination: line.read()?,
            header: line.read()?,
        })
    }
}

// Bit i is link i.
fn read_states(line: &mut Tokens<'_>) -> Option<[bool; Network::LINKS]> {
    let bits: u64 = line.read()?;
    let mut up = [false; Network::LINKS];
    for i in 0..Network::LINKS {
        up[i] = bits >> i & 1 == 1;
    }
    Some(up)
}

fn read_seats(line: &mut Tokens<'_>) -> Option<[Seat; Network::SWITCHES]> {
    let none = Seat::fresh(Setup {
        ports: 0,
        live: 0,
        host: 0,
        limit: 0,
        salt: 0,
    });
    let mut seats = [none; Network::SWITCHES];
    line.items(&mut seats)?;
    Some(seats)
}

fn read_copies(line: &mut Tokens<'_>) -> Option<[Copy; Copy::MOST]> {
    let mut copies = [Copy::empty(); Copy::MOST];
    line.items(&mut copies)?;
    Some(copies)
}

impl Token for Bench {
    fn read(line: &mut Tokens<'_>) -> Option<Bench> {
        line.letter(b'l')?;
        let network = line.read()?;
        let up = read_states(line)?;
        let seats = read_seats(line)?;
        let flying = line.at_most(0xffff)?;
        let copies = read_copies(line)?;
        Some(Bench {
            network,
            up,
            seats,
            copies,
            flying,
        })
    }
}

impl Token for Counters {
    fn read(line: &mut Tokens<'_>) -> Option<Counters> {
        Some(Counters {
            placed: line.read()?,
            taken: line.read()?,
            cut: line.read()?,
            lost: line.read()?,
            delivered: line.read()?,
            overwritten: line.read()?,
            accepted: line.read()?,
        })
    }
}

// Its six bytes.
impl Token for Address {
    fn read(line: &mut Tokens<'_>) -> Option<Address> {
        let mut bytes = [0; 6];
        if line.bytes(&mut bytes)? < 6 {
            return None;
        }
        let [b0, b1, b2, b3, b4, b5] = bytes;
        Some(Address {
            b0,
            b1,
            b2,
            b3,
            b4,
            b5,
        })
    }
}

impl Token for Presented {
    fn read(line: &mut Tokens<'_>) -> Option<Presented> {
        Some(Presented {
            host: line.read()?,
            to: line.read()?,
        })
    }
}

impl Token for Setting {
    fn read(line: &mut Tokens<'_>) -> Option<Setting> {
        Some(Setting {
            link: line.read()?,
            state: line.read()?,
        })
    }
}

impl Token for Event {
    fn read(line: &mut Tokens<'_>) -> Option<Event> {
        match line.number()? {
            4 => Some(Event::Present(line.read()?)),
            5 => Some(Event::Take(line.read()?)),
            6 => Some(Event::Link(line.read()?)),
            _ => None,
        }
    }
}

impl Token for Fresh {
    fn read(line: &mut Tokens<'_>) -> Option<Fresh> {
        let network = line.read()?;
        Some(Fresh { network })
    }
}

impl Token for Happening {
    fn read(line: &mut Tokens<'_>) -> Option<Happening> {
        Some(Happening {
            bench: line.read()?,
            counters: line.read()?,
            event: line.read()?,
        })
    }
}

// The bits of the links that there are.
fn bits_of(up: &[bool; Network::LINKS], links: u8) -> u64 {
    let mut bits: u64 = 0;
    for i in 0..Network::LINKS {
        if i < links as usize && up[i] {
            bits |= 1 << i;
        }
    }
    bits
}

fn print_seats(rt: &impl Print, b: &Bench) -> io::Result<()> {
    let used = b.seats.iter().take(b.network.nswitches as usize);
    for (i, seat) in used.enumerate() {
        println!(rt; "seat {i}")?;
        print_head(rt, &seat.switch)?;
        print_filter(rt, &seat.cells)?;
    }
    Ok(())
}

// Where each will arrive, and what it carries.
fn print_copies(rt: &impl Print, b: &Bench) -> io::Result<()> {
    println!(rt; "copies {}", b.flying)?;
    for (i, c) in b.copies.iter().take(b.flying).enumerate() {
        let to = cabling::port_of(
            &b.network,
            End {
                link: c.link,
                second: c.second,
            },
        );
        println!(rt;
            "copy {i} {} {} {:016x} {:016x} {}",
            to.switch,
            to.number,
            c.source,
            c.destination,
            Fields(c.header)
        )?;
    }
    Ok(())
}

// The bench without what lies behind its counts.
pub(crate) fn print_bench(rt: &impl Print, b: &Bench) -> io::Result<()> {
    print_network(rt, &b.network)?;
    println!(rt; "states {:016x}", bits_of(&b.up, b.network.nlinks))?;
    print_seats(rt, b)?;
    print_copies(rt, b)
}

pub(crate) fn print_counters(rt: &impl Print, c: &Counters) -> io::Result<()> {
    println!(rt;
        "counters {} {} {} {} {} {} {}",
        c.placed, c.taken, c.cut, c.lost, c.delivered, c.overwritten, c.accepted
    )
}

// What came of a step's copies, of which none is cut; where it was, and the frame's addresses.
pub(crate) fn print_report(rt: &impl Print, done: Done) -> io::Result<()> {
    match done {
        Done::Stepped(r) => println!(rt;
            "report {} {} {} 0 {:08x} {} {} {} {:016x} {:016x}",
            Sent(r.verdict),
            r.placed,
            r.lost,
            r.received,
            r.overwrote as u8,
            r.switch,
            r.port,
            r.source,
            r.destination
        ),
        Done::Linked(cut) => println!(rt; "report K 0000 0 0 0 0 0 0 {cut} 00000000 0"),
    }
}

impl Call for Happening {
    fn answer<P: Print>(self, rt: &P) -> io::Result<()> {
        let mut bench = self.bench;
        let mut counters = self.counters;
        match counters::event(&mut bench, self.event, &mut counters) {
            Ok(done) => {
                print_report(rt, done)?;
                print_bench(rt, &bench)?;
                print_counters(rt, &counters)
            }
            Err(why) => {
                print::refused(rt, why)?;
                let is_same = bench == self.bench && counters == self.counters;
                println!(rt; "{}", if is_same { "same" } else { "changed" })
            }
        }
    }
}

impl Call for Fresh {
    fn answer<P: Print>(self, rt: &P) -> io::Result<()> {
        match Bench::fresh(&self.network) {
            Ok(bench) => {
                println!(rt; "fresh")?;
                print_bench(rt, &bench)
            }
            Err(why) => print::refused(rt, why),
        }
    }
}
