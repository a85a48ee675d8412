// The checks of one record, given the network that the records before it made.
//
// Each refusal is one question, asked of every kind of record, and `check` asks them in the
// document's order. What a count leaves unused of its array is never asked; behind the array's end
// all elements are zeros, and one answers for the rest.
ghost use Rattle.std.specs.Prelude.{◌≡◌, ◌-◌, IfOk};
ghost use Rattle.refusal.specs.Number.{refused_as};
ghost use Rattle.network.specs.Network.{add, no_host, no_link, up_to};
ghost use Rattle.network.specs.Checks.{any, bad_address, has_address, host_on, link_on, not_above, out_of_order, out_of_range, place, port_taken, record_fault, address_out, switch_out, stands, taken, too_many};

use crate::{Host, Link, Network, Port, Record, Switch};
use refusal::Refusal;

// An address has six bytes, and its group bit is the lowest of the first.
const ADDRESSES: u64 = 0x1_0000_0000_0000;

const GROUP: u64 = 0x100_0000_0000;

// A port as one number, which orders by switch and then by port.
fn place(p: Port) -> u64
    ensures { result ≡ place p }
{
    p.switch as u64 * 256 + p.number as u64
}

// One of the network's hosts has its cable at a place.
fn is_on_a_host(n: &Network, at: u64) -> bool
    ensures { result ≡ any (host_on at) (up_to no_host n.now.nhosts n.now.hosts) }
{
    let count = n.nhosts as usize;
    n.hosts.iter().take(count).any(|h| place(h.port) == at) || Network::HOSTS < count && at == 0
}

// One of the network's hosts has an address.
fn is_an_address(n: &Network, address: u64) -> bool
    ensures { result ≡ any (has_address address) (up_to no_host n.now.nhosts n.now.hosts) }
{
    let count = n.nhosts as usize;
    n.hosts.iter().take(count).any(|h| h.address == address)
        || Network::HOSTS < count && address == 0
}

fn has_end_at(l: Link, at: u64) -> bool
    ensures { result ≡ link_on at l }
{
    place(l.first) == at || place(l.second) == at
}

// One of the network's links has an end at a place.
fn is_on_a_link(n: &Network, at: u64) -> bool
    ensures { result ≡ any (link_on at) (up_to no_link n.now.nlinks n.now.links) }
{
    let count = n.nlinks as usize;
    n.links.iter().take(count).any(|l| has_end_at(*l, at)) || Network::LINKS < count && at == 0
}

// The port has a cable.
#[tactic(auto, unfolding(crate::specs::Checks::taken, crate::specs::Network::hosts_of, crate::specs::Network::links_of))]
fn is_taken(n: &Network, p: Port) -> bool
    ensures { result ≡ taken n.now p }
{
    let at = place(p);
    is_on_a_host(n, at) || is_on_a_link(n, at)
}

// There is such a switch, and it has such a port.
#[tactic(auto, unfolding(crate::specs::Checks::stands))]
fn stands(n: &Network, p: Port) -> bool
    ensures { result ≡ stands n.now p }
{
    p.switch < n.nswitches && p.number < n.switch(p.switch as usize).ports
}

// There is a last one of so many, and the port is not above it.
#[tactic(auto, unfolding(crate::specs::Checks::not_above))]
fn is_not_above(count: u8, last: Port, p: Port) -> bool
    ensures { result ≡ not_above count last p }
{
    count != 0 && place(p) <= place(last)
}

// 25: there are as many of its kind as there may be.
#[tactic(auto, unfolding(crate::specs::Checks::too_many))]
fn are_too_many(n: &Network, r: Record) -> bool
    ensures { result ≡ too_many n.now r }
{
    match r {
        Record::Switch(_) => Network::SWITCHES <= n.nswitches as usize,
        Record::Host(_) => Network::HOSTS <= n.nhosts as usize,
        Record::Link(_) => Network::LINKS <= n.nlinks as usize,
    }
}

// 26: the kind falls, or the record doesn't ascend.
#[tactic(auto, unfolding(crate::specs::Checks::out_of_order))]
fn is_out_of_order(n: &Network, r: Record) -> bool
    ensures { result ≡ out_of_order n.now r }
{
    match r {
        Record::Switch(_) => 0 < n.nhosts || 0 < n.nlinks,
        Record::Host(h) => {
            let last = n.host((n.nhosts as usize).saturating_sub(1));
            0 < n.nlinks || is_not_above(n.nhosts, last.port, h.port)
        }
        Record::Link(l) => {
            let last = n.link((n.nlinks as usize).saturating_sub(1));
            place(l.second) <= place(l.first) || is_not_above(n.nlinks, last.first, l.first)
        }
    }
}

// A switch's numbers are out of range.
#[tactic(auto, unfolding(crate::specs::Checks::switch_out))]
fn is_switch_out(s: Switch) -> bool
    ensures { result ≡ switch_out s }
{
    s.ports < 1 || Switch::PORTS < s.ports || Switch::LIMIT < s.limit
}

// 22: number out of range, no such switch or port.
#[tactic(auto, unfolding(crate::specs::Checks::out_of_range))]
fn is_out_of_range(n: &Network, r: Record) -> bool
    ensures { result ≡ out_of_range n.now r }
{
    match r {
        Record::Switch(s) => is_switch_out(s),
        Record::Host(h) => !stands(n, h.port) || ADDRESSES <= h.address,
        Record::Link(l) => !stands(n, l.first) || !stands(n, l.second),
    }
}

// 23: port already taken.
#[tactic(auto, unfolding(crate::specs::Checks::port_taken))]
fn is_port_taken(n: &Network, r: Record) -> bool
    ensures { result ≡ port_taken n.now r }
{
    match r {
        Record::Switch(_) => false,
        Record::Host(h) => is_taken(n, h.port),
        Record::Link(l) => is_taken(n, l.first) || is_taken(n, l.second),
    }
}

// An address is zero, group, or that of a host of the network.
#[tactic(auto, unfolding(crate::specs::Checks::address_out, crate::specs::Network::hosts_of))]
fn is_address_out(n: &Network, address: u64) -> bool
    ensures { result ≡ address_out n.now address }
{
    address == 0 || address / GROUP % 2 == 1 || is_an_address(n, address)
}

// 24: address zero, group, or twice.
#[tactic(auto, unfolding(crate::specs::Checks::bad_address))]
fn is_bad_address(n: &Network, r: Record) -> bool
    ensures { result ≡ bad_address n.now r }
{
    match r {
        Record::Host(h) => is_address_out(n, h.address),
        _ => false,
    }
}

// Why a record is refused behind the network of those before it, where it is.
#[tactic(auto, unfolding(crate::specs::Checks::record_fault))]
fn check(n: &Network, r: Record) -> Result<(), Refusal>
    ensures { refused_as result ≡ record_fault n.now r }
{
    Refusal::TooMany.when(are_too_many(n, r))?;
    Refusal::OutOfOrder.when(is_out_of_order(n, r))?;
    Refusal::OutOfRange.when(is_out_of_range(n, r))?;
    Refusal::PortTaken.when(is_port_taken(n, r))?;
    Refusal::BadAddress.when(is_bad_address(n, r))
}

// Takes one record more into the network, unless it is refused: reader and writer go through
// their records by this.
#[tactic(auto, unfolding(crate::specs::Network::add))]
pub(crate) fn take_in(n: &mut Network, r: Record) -> Result<(), Refusal>
    ensures number { refused_as result ≡ record_fault n.old r }
    ensures network { IfOk result (λ u. n.new ≡ add n.old r) }
{
    check(n, r)?;
    match r {
        Record::Switch(s) => {
            n.switches[n.nswitches as usize] = s;
            n.nswitches += 1;
        }
        Record::Host(h) => {
            n.hosts[n.nhosts as usize] = h;
            n.nhosts += 1;
        }
        Record::Link(l) => {
            n.links[n.nlinks as usize] = l;
            n.nlinks += 1;
        }
    }
    Ok(())
}
