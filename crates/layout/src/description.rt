// The parts of a network: for each a loop that reads it, and one that lays it down. What lays an
// array ensures its length too: a caller that has it as a field doesn't know it.
ghost use mathlib.Core.List.{◌∷◌, [], flat_map, map};
ghost use Rattle.std.specs.Prelude.{◌≡◌, ◌+◌, ◌<◌, ◌≤◌, length};
ghost use Rattle.wire.specs.Wire.{put};
ghost use Rattle.network.specs.Format.{port_in};
ghost use Rattle.network.specs.Network.{most_hosts, most_links, most_switches};
ghost use Rattle.layout.specs.Layout.{host_bytes, host_in, hosts_at, link_bytes, link_in, links_at, listed, switch_bytes, switch_in, switches_at};

use crate::puts::put_row;
use network::{Host, Link, Network, Port, Switch};
use std::array;

// Where the parts begin in a network's bytes.
const SWITCHES_AT: usize = 3;

const HOSTS_AT: usize = 35;

const LINKS_AT: usize = 99;

#[tactic(auto, using(crate::proofs::Laws::switch_is))]
fn switch_at(bytes: &[u8], salts: &[u32], i: usize) -> Switch
    requires { (length bytes.now ≡ 355) × (length salts.now ≡ 16) × (i < most_switches) }
    ensures { result ≡ switch_in bytes.now salts.now i }
{
    let at = SWITCHES_AT + 2 * i;
    Switch {
        ports: bytes[at],
        limit: bytes[at + 1],
        salt: salts[i],
    }
}

pub(crate) fn switches_of(bytes: &[u8], salts: &[u32]) -> [Switch; Network::SWITCHES]
    requires { (length bytes.now ≡ 355) × (length salts.now ≡ 16) }
    ensures { result ≡ listed most_switches (switch_in bytes.now salts.now) }
{
    array::from_fn(|i| switch_at(bytes, salts, i))
}

// The port whose two bytes stand at a place.
fn port_at(bytes: &[u8], at: usize) -> Port
    requires { at + 2 ≤ length bytes.now }
    ensures { result ≡ port_in at bytes.now }
{
    Port {
        switch: bytes[at],
        number: bytes[at + 1],
    }
}

#[tactic(auto, using(crate::proofs::Laws::host_is))]
fn host_at(bytes: &[u8], addresses: &[u64], i: usize) -> Host
    requires { (length bytes.now ≡ 355) × (length addresses.now ≡ 32) × (i < most_hosts) }
    ensures { result ≡ host_in bytes.now addresses.now i }
{
    Host {
        port: port_at(bytes, HOSTS_AT + 2 * i),
        address: addresses[i],
    }
}

pub(crate) fn hosts_of(bytes: &[u8], addresses: &[u64]) -> [Host; Network::HOSTS]
    requires { (length bytes.now ≡ 355) × (length addresses.now ≡ 32) }
    ensures { result ≡ listed most_hosts (host_in bytes.now addresses.now) }
{
    array::from_fn(|i| host_at(bytes, addresses, i))
}

#[tactic(auto, using(crate::proofs::Laws::link_is))]
fn link_at(bytes: &[u8], i: usize) -> Link
    requires { (length bytes.now ≡ 355) × (i < most_links) }
    ensures { result ≡ link_in bytes.now i }
{
    let at = LINKS_AT + 4 * i;
    Link {
        first: port_at(bytes, at),
        second: port_at(bytes, at + 2),
    }
}

pub(crate) fn links_of(bytes: &[u8]) -> [Link; Network::LINKS]
    requires { length bytes.now ≡ 355 }
    ensures { result ≡ listed most_links (link_in bytes.now) }
{
    array::from_fn(|i| link_at(bytes, i))
}

pub(crate) fn lay_switches(
    switches: &[Switch; Network::SWITCHES],
    bytes: &mut [u8],
    salts: &mut [u32],
)
    requires { (length bytes.old ≡ 355) × (length salts.old ≡ 16) }
    ensures bytes { bytes.new ≡ put bytes.old switches_at (flat_map switch_bytes switches.now) }
    ensures salts { salts.new ≡ map (λ s. s.salt) switches.now }
    ensures long { length switches.now ≡ most_switches }
{
    for (i, s) in switches.iter().enumerate() {
        put_row(bytes, SWITCHES_AT + 2 * i, &[s.ports, s.limit]);
        salts[i] = s.salt;
    }
}

pub(crate) fn lay_hosts(hosts: &[Host; Network::HOSTS], bytes: &mut [u8], addresses: &mut [u64])
    requires { (length bytes.old ≡ 355) × (length addresses.old ≡ 32) }
    ensures bytes { bytes.new ≡ put bytes.old hosts_at (flat_map host_bytes hosts.now) }
    ensures addresses { addresses.new ≡ map (λ h. h.address) hosts.now }
    ensures long { length hosts.now ≡ most_hosts }
{
    for (i, h) in hosts.iter().enumerate() {
        put_row(bytes, HOSTS_AT + 2 * i, &[h.port.switch, h.port.number]);
        addresses[i] = h.address;
    }
}

pub(crate) fn lay_links(links: &[Link; Network::LINKS], bytes: &mut [u8])
    requires { length bytes.old ≡ 355 }
    ensures bytes { bytes.new ≡ put bytes.old links_at (flat_map link_bytes links.now) }
    ensures long { length links.now ≡ most_links }
{
    for (i, l) in links.iter().enumerate() {
        let ends = [
            l.first.switch,
            l.first.number,
            l.second.switch,
            l.second.number,
        ];
        put_row(bytes, LINKS_AT + 4 * i, &ends);
    }
}
