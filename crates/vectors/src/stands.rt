// A stand's network: read, described, printed.
use crate::token::{INPUT, Output, Token, Tokens};
use crate::{Call, print};
use network::{Host, Link, Network, Port, Switch};
use std::io;

#[derive(Clone, Copy)]
pub(crate) struct Write {
    network: Network,
    output: Output,
}

impl Token for Port {
    fn read(line: &mut Tokens<'_>) -> Option<Port> {
        Some(Port {
            switch: line.read()?,
            number: line.read()?,
        })
    }
}

impl Token for Switch {
    fn read(line: &mut Tokens<'_>) -> Option<Switch> {
        Some(Switch {
            ports: line.read()?,
            limit: line.read()?,
            salt: line.read()?,
        })
    }
}

impl Token for Host {
    fn read(line: &mut Tokens<'_>) -> Option<Host> {
        Some(Host {
            port: line.read()?,
            address: line.read()?,
        })
    }
}

impl Token for Link {
    fn read(line: &mut Tokens<'_>) -> Option<Link> {
        Some(Link {
            first: line.read()?,
            second: line.read()?,
        })
    }
}

impl Token for Network {
    fn read(line: &mut Tokens<'_>) -> Option<Network> {
        let mut n = Network::empty();
        n.nswitches = line.read()?;
        n.nhosts = line.read()?;
        n.nlinks = line.read()?;
        line.items(&mut n.switches)?;
        line.items(&mut n.hosts)?;
        line.items(&mut n.links)?;
        Some(n)
    }
}

impl Token for Write {
    fn read(line: &mut Tokens<'_>) -> Option<Write> {
        Some(Write {
            network: line.read()?,
            output: line.read()?,
        })
    }
}

fn print_switches(rt: &impl Print, n: &Network) -> io::Result<()> {
    for (i, s) in n.switches.iter().take(n.nswitches as usize).enumerate() {
        println!(rt; "switch {i} {} {} {:08x}", s.ports, s.limit, s.salt)?;
    }
    Ok(())
}

fn print_hosts(rt: &impl Print, n: &Network) -> io::Result<()> {
    for (i, h) in n.hosts.iter().take(n.nhosts as usize).enumerate() {
        println!(rt;
            "host {i} {} {} {:016x}",
            h.port.switch, h.port.number, h.address
        )?;
    }
    Ok(())
}

fn print_links(rt: &impl Print, n: &Network) -> io::Result<()> {
    for (i, l) in n.links.iter().take(n.nlinks as usize).enumerate() {
        println!(rt;
            "link {i} {} {} {} {}",
            l.first.switch, l.first.number, l.second.switch, l.second.number
        )?;
    }
    Ok(())
}

// The network without what lies behind its counts.
pub(crate) fn print_network(rt: &impl Print, n: &Network) -> io::Result<()> {
    println!(rt; "network {} {} {}", n.nswitches, n.nhosts, n.nlinks)?;
    print_switches(rt, n)?;
    print_hosts(rt, n)?;
    print_links(rt, n)
}

pub(crate) fn read(rt: &impl Print, line: Tokens<'_>) -> io::Result<()> {
    let mut room = [0; INPUT];
    let Some(long) = line.whole_input(&mut room) else {
        return print::unreadable(rt);
    };
    match network::read(&room[..long]) {
        Ok(d) => {
            println!(rt; "read {}", d.end)?;
            print_network(rt, &d.network)
        }
        Err(why) => print::refused(rt, why),
    }
}

impl Call for Write {
    fn answer<P: Print>(self, rt: &P) -> io::Result<()> {
        let mut out = self.output.bytes();
        match network::write(&self.network, out.all_mut()) {
            Ok(long) => println!(rt; "written {long}")?,
            Err(why) => print::refused(rt, why)?,
        }
        print::output(rt, self.output, out.all())
    }
}
