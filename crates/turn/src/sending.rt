// What becomes of a step's copies: a host receives, or a link carries one to its other end.
ghost use Rattle.std.specs.Prelude.{◌≡◌, ◌+◌, ◌≤◌, ◌<◌};
ghost use Rattle.rules.specs.Verdict.{sending_of};
ghost use Rattle.cabling.specs.Cabling.{most_ports, plug_at};
ghost use Rattle.flight.specs.Flight.{copies_in};
ghost use Rattle.turn.specs.Send.{Numbered, Received, Written, copy_to, joins, nothing, nothing_sent, outbox, send_at, send_from, send_on, send_out};

use cabling::{End, Plug, other, plug_at};
use flight::{Copy, Flight};
use frame::Header;
use network::Switch;
use rules::masks::has_port;
use rules::{Arrival, Send, Verdict, sending_of};

// The hosts that received, and how many copies were placed and lost.
#[derive(Clone, Copy, PartialEq, Eq)]
pub struct Sent {
    pub received: u32,
    pub placed: u8,
    pub lost: u8,
}

impl Sent {
    // Before anything is sent.
    fn nothing() -> Self
        ensures { result ≡ nothing }
    {
        Sent {
            received: 0,
            placed: 0,
            lost: 0,
        }
    }
}

fn copy_to(e: End, a: Arrival, h: Header) -> Copy
    ensures { result ≡ copy_to e a h }
{
    Copy {
        link: e.link,
        second: e.second,
        source: a.source,
        destination: a.destination,
        header: h,
    }
}

// A new copy joins the end while there is room; the others are lost.
#[tactic(auto, using(crate::proofs::Outboxes::joins_room, crate::proofs::Outboxes::joins_full, flight::proofs::Laws::copies_length, crate::proofs::Writing::written_joined))]
fn join(c: Copy, flight: &mut Flight, s: Sent) -> Sent
    requires { s.placed + s.lost ≤ 254 }
    ensures sent { outbox (copies_in flight.new.flying flight.new.words) result ≡ joins c (outbox (copies_in flight.old.flying flight.old.words) s) }
    ensures room { result.placed + result.lost ≤ s.placed + s.lost + 1 }
    ensures words { Written flight.old.flying flight.old.words flight.new.flying flight.new.words }
{
    if flight.flying < Copy::MOST {
        flight::join(&mut flight.words, flight.flying, c);
        flight.flying += 1;
        Sent {
            placed: s.placed + 1,
            ..s
        }
    } else {
        Sent {
            lost: s.lost + 1,
            ..s
        }
    }
}

// A host receives: its bit is set.
#[tactic(auto, using(crate::proofs::Outboxes::host_bit), unfolding(crate::specs::Send::receives))]
fn receive(i: u8, s: Sent) -> Sent
    requires { i < 32 }
    ensures { Received i s result }
{
    Sent {
        received: s.received | 1u32 << (i as u32),
        ..s
    }
}

// One port sends.
#[tactic(auto, unfolding(crate::specs::Send::send_on))]
fn send_on(plug: Plug, a: Arrival, h: Header, flight: &mut Flight, s: Sent) -> Sent
    requires { (s.placed + s.lost ≤ 254) × Numbered plug }
    ensures sent { outbox (copies_in flight.new.flying flight.new.words) result ≡ send_on plug a h (outbox (copies_in flight.old.flying flight.old.words) s) }
    ensures room { result.placed + result.lost ≤ s.placed + s.lost + 1 }
    ensures words { Written flight.old.flying flight.old.words flight.new.flying flight.new.words }
{
    match plug {
        Plug::Open => s,
        Plug::Host(i) => receive(i, s),
        Plug::Link(e) => join(copy_to(other(e), a, h), flight, s),
    }
}

// A port sends where the mask names it.
#[tactic(auto, using(crate::proofs::Outboxes::numbered), unfolding(crate::specs::Send::send_at))]
fn send_at(
    plugs: &[u8],
    switch: u8,
    port: u8,
    a: Arrival,
    c: Send,
    flight: &mut Flight,
    s: Sent,
) -> Sent
    requires { s.placed + s.lost ≤ 254 }
    ensures sent { outbox (copies_in flight.new.flying flight.new.words) result ≡ send_at (plug_at plugs.now switch) a c.mask c.header port (outbox (copies_in flight.old.flying flight.old.words) s) }
    ensures room { result.placed + result.lost ≤ s.placed + s.lost + 1 }
    ensures words { Written flight.old.flying flight.old.words flight.new.flying flight.new.words }
{
    if has_port(c.mask, port) {
        send_on(plug_at(plugs, switch, port), a, c.header, flight, s)
    } else {
        s
    }
}

// All ports send, in ascending order.
fn send_all(plugs: &[u8], switch: u8, a: Arrival, c: Send, flight: &mut Flight) -> Sent
    ensures sent { outbox (copies_in flight.new.flying flight.new.words) result ≡ send_from (plug_at plugs.now switch) a c.mask c.header most_ports 0 (nothing_sent (copies_in flight.old.flying flight.old.words)) }
    ensures room { result.placed + result.lost ≤ most_ports }
    ensures words { Written flight.old.flying flight.old.words flight.new.flying flight.new.words }
{
    let mut s = Sent::nothing();
    for port in 0..Switch::PORTS {
        s = send_at(plugs, switch, port, a, c, flight, s);
    }
    s
}

// What a verdict sends goes out.
#[tactic(auto, unfolding(crate::specs::Send::send_out))]
pub fn send_out(plugs: &[u8], switch: u8, a: Arrival, v: Verdict, flight: &mut Flight) -> Sent
    ensures sent { outbox (copies_in flight.new.flying flight.new.words) result ≡ send_out (plug_at plugs.now switch) a (sending_of v) (nothing_sent (copies_in flight.old.flying flight.old.words)) }
    ensures room { result.placed + result.lost ≤ most_ports }
    ensures words { Written flight.old.flying flight.old.words flight.new.flying flight.new.words }
{
    match sending_of(v) {
        None => Sent::nothing(),
        Some(c) => send_all(plugs, switch, a, c, flight),
    }
}
