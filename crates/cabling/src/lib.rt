// What is plugged into each port of a stand, and the setup that a switch has.
//
// The one idea: who asks what is at a port asks often, and the answer never changes. So the cables
// are looked through once, and each port gets one number, of a host, of a link's end or of nothing.
// A switch's setup follows from those numbers and from which links are up.
#![tactic(auto)]

ghost use Rattle.std.specs.Prelude.{◌≡◌, cond, ◌+◌, ◌*◌, ◌<◌, ◌≤◌, min, set};
ghost use Rattle.network.specs.Network.{most_hosts, most_links};
ghost use Rattle.rules.specs.Mask.{only};
ghost use Rattle.cabling.specs.Cabling.{is_hosts, is_live, most_ports, other_end, place_of, plug_all, plug_at, plug_host, plug_in, plug_link, plugs_of, port_of, setup_of};

use network::{Network, Port, Switch};
use rules::Setup;
use rules::masks::only_port;

// One end of a link.
#[derive(Clone, Copy, PartialEq, Eq)]
pub struct End {
    pub link: u8,
    pub second: bool,
}

// What a port has: no cable, a host's, or an end of a link.
#[derive(Clone, Copy, PartialEq, Eq)]
pub enum Plug {
    Open,
    Host(u8),
    Link(End),
}

// A number for each port that a stand may have.
pub const PLACES: usize = Network::SWITCHES * Switch::PORTS as usize;

// The number at a port: 0 for nothing, FIRST_HOST + i for host i, FIRST_LINK + 2 l for link l's
// first end, and one more for its second.
const FIRST_HOST: u8 = 1;

const FIRST_LINK: u8 = 33;

// A stand as it is cabled: its network, and what is plugged into each port, worked out once.
#[derive(Drop)]
pub struct Stand {
    pub network: Network,
    pub plugs: [u8; PLACES],
    pub ghost cabled: { plugs ≡ plugs_of network },
}

impl Stand {
    pub fn new(network: Network) -> Stand
        ensures { result.network ≡ network }
    {
        let plugs = plugs_of(&network);
        Stand { network, plugs }
    }
}

// Where the number of a switch's port is kept.
fn place_of(switch: u8, port: u8) -> usize
    ensures { result ≡ switch * most_ports + port }
{
    switch as usize * Switch::PORTS as usize + port as usize
}

// A port gets its number; there is no place behind the end.
fn mark(plugs: &mut [u8], p: Port, number: u8)
    ensures { plugs.new ≡ set plugs.old (place_of p) number }
{
    let place = place_of(p.switch, p.number);
    if place < plugs.len() {
        plugs[place] = number;
    }
}

// Each host is plugged in.
#[tactic(auto, unfolding(crate::specs::Cabling::plug_all, crate::specs::Cabling::plug_host))]
fn plug_hosts(n: &Network, plugs: &mut [u8])
    ensures { plugs.new ≡ plug_all (plug_host n.now.hosts) (min n.now.nhosts most_hosts) plugs.old }
{
    // By number: the number is what the port gets.
    for i in 0..n.nhosts.min(Network::HOSTS as u8) {
        let h = n.hosts[i as usize];
        mark(plugs, h.port, FIRST_HOST + i);
    }
}

// Each link is plugged in, at both ends.
#[tactic(auto, unfolding(crate::specs::Cabling::plug_all, crate::specs::Cabling::plug_link))]
fn plug_links(n: &Network, plugs: &mut [u8])
    ensures { plugs.new ≡ plug_all (plug_link n.now.links) (min n.now.nlinks most_links) plugs.old }
{
    // By number: the number is what the ports get.
    for i in 0..n.nlinks.min(Network::LINKS as u8) {
        let l = n.links[i as usize];
        let number = FIRST_LINK + 2 * i;
        mark(plugs, l.first, number);
        mark(plugs, l.second, number + 1);
    }
}

// What is plugged into each port, as one number.
#[tactic(auto, unfolding(crate::specs::Cabling::plugs_of))]
pub fn plugs_of(n: &Network) -> [u8; PLACES]
    ensures { result ≡ plugs_of n.now }
{
    let mut plugs = [0u8; PLACES];
    plug_hosts(n, &mut plugs);
    plug_links(n, &mut plugs);
    plugs
}

// What a number stands for.
#[tactic(auto, unfolding(crate::specs::Cabling::plug_in))]
fn plug_in(number: u8) -> Plug
    ensures { result ≡ plug_in number }
{
    if number < FIRST_HOST {
        return Plug::Open;
    }
    if number < FIRST_LINK {
        return Plug::Host(number - FIRST_HOST);
    }
    let above = number - FIRST_LINK;
    Plug::Link(End {
        link: above / 2,
        second: above % 2 == 1,
    })
}

// What is plugged into a port of a switch.
#[tactic(auto, unfolding(crate::specs::Cabling::plug_at, crate::specs::Cabling::plug_in))]
pub fn plug_at(plugs: &[u8], switch: u8, port: u8) -> Plug
    ensures { result ≡ plug_at plugs.now switch port }
{
    if Switch::PORTS <= port {
        return Plug::Open;
    }
    let place = place_of(switch, port);
    if plugs.len() <= place {
        return Plug::Open;
    }
    plug_in(plugs[place])
}

// Whether a port with this plug is up: host ports always are.
#[tactic(auto, unfolding(crate::specs::Cabling::is_live))]
fn is_live(up: &[bool], plug: Plug) -> bool
    ensures { result ≡ is_live up.now plug }
{
    match plug {
        Plug::Open => false,
        Plug::Host(_) => true,
        Plug::Link(e) => {
            let link = e.link as usize;
            link < up.len() && up[link]
        }
    }
}

// Whether a port with this plug is a host's.
#[tactic(auto, unfolding(crate::specs::Cabling::is_hosts))]
fn is_hosts(plug: Plug) -> bool
    ensures { result ≡ is_hosts plug }
{
    matches!(plug, Plug::Host(_))
}

// The port's bit, if it is to be set.
fn bit_of(is: bool, port: u8) -> u16
    requires { port < 16 }
    ensures { result ≡ cond is (only port) 0 }
{
    if is { only_port(port) } else { 0 }
}

// The setup that a switch has with these links up. No cable is at a port from 8 on, so that such
// ports are in no mask.
pub fn setup_of(n: &Network, plugs: &[u8], up: &[bool], switch: u8) -> Setup
    ensures { result ≡ setup_of n.now plugs.now up.now switch }
{
    let s = n.switch(switch as usize);
    let mut live: u16 = 0;
    let mut host: u16 = 0;
    for p in 0..s.ports.min(Switch::PORTS) {
        let plug = plug_at(plugs, switch, p);
        live += bit_of(is_live(up, plug), p);
        host += bit_of(is_hosts(plug), p);
    }
    Setup {
        ports: s.ports,
        live,
        host,
        limit: s.hop_limit(),
        salt: s.salt,
    }
}

// The port at an end of a link.
#[tactic(auto, unfolding(crate::specs::Cabling::port_of))]
pub fn port_of(n: &Network, e: End) -> Port
    ensures { result ≡ port_of n.now e }
{
    let l = n.link(e.link as usize);
    if e.second { l.second } else { l.first }
}

// The link's other end.
pub fn other(e: End) -> End
    ensures { result ≡ other_end e }
{
    End {
        link: e.link,
        second: !e.second,
    }
}
