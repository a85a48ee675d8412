// The refusals of a step, 1 to 9, one row for each cause in the document's order. No row needs
// what a row before it found: each takes every input.
ghost use Rattle.std.specs.Prelude.{◌≡◌, ◌^◌, ◌<◌, OnOk, leb, length};
ghost use Rattle.refusal.specs.Number.{refused_as};
ghost use Rattle.refusal.specs.Refusal.{first};
ghost use Rattle.table.specs.Table.{Sized, table_of};
ghost use Rattle.head.specs.Switch.{switch_causes};
ghost use Rattle.head.specs.Step as spec;

use crate::Switch;
use frame::Frame;
use refusal::{Refusal, is_outside};
use rules::Setup;
use rules::masks::has_port;

// Whether a mask names a port from the number of ports on.
fn names_beyond(ports: u8, mask: u16) -> bool
    ensures { result ≡ leb (2 ^ ports) mask }
{
    ports < 16 && 1u16 << (ports as u16) <= mask
}

impl Switch {
    // Refusal 1.
    pub fn check(&self, filter: &[u8]) -> Result<(), Refusal>
        ensures refused { refused_as result ≡ first (switch_causes self.now filter.now) }
        ensures sized { OnOk result (Sized self.now.table) }
    {
        check_switch(
            self.setup,
            self.nonce,
            &self.table.addresses,
            &self.table.ports,
            &self.table.hops,
            filter,
        )
    }
}

// Refusal 1 of a switch lent as its parts. Not inlined: the test is most of a step, and was measured slower amid the rest of it.
#[inline(never)]
pub fn check_switch(
    s: Setup,
    nonce: u32,
    addresses: &[u64],
    ports: &[u8],
    hops: &[u8],
    filter: &[u8],
) -> Result<(), Refusal>
    requires { Sized (table_of addresses.now ports.now hops.now) }
    ensures { refused_as result ≡ first (switch_causes (spec.switch_of s nonce (table_of addresses.now ports.now hops.now)) filter.now) }
{
    Refusal::IllFormed.when(is_outside(1, 16, s.ports as usize))?;
    Refusal::IllFormed.when(names_beyond(s.ports, s.live))?;
    Refusal::IllFormed.when(names_beyond(s.ports, s.host))?;
    Refusal::IllFormed.when(is_outside(1, 62, s.limit as usize))?;
    Refusal::IllFormed.when(Frame::NONCES <= nonce)?;
    Refusal::IllFormed.when(!table::is_well_formed_in(addresses, ports, hops, s.ports))?;
    Refusal::IllFormed.when(!filter::is_well_formed(filter))
}

// Cause 4.
fn is_bad_length(host: bool, n: usize) -> bool
    ensures { result ≡ spec.bad_length host n }
{
    if host {
        is_outside(Frame::SHORTEST, Frame::LONGEST, n)
    } else {
        is_outside(Frame::SHORTEST + Frame::TAG, Frame::LONGEST + Frame::TAG, n)
    }
}

// Cause 6.
fn has_tag_inside(host: bool, frame: &[u8]) -> bool
    ensures { result ≡ spec.tag_inside host frame.now }
{
    if host {
        frame::type_of(frame) == Frame::OUR_TYPE
    } else {
        frame::is_tagged_twice(frame)
    }
}

// Cause 7.
fn lacks_tag(host: bool, frame: &[u8]) -> bool
    ensures { result ≡ spec.lacks_tag host frame.now }
{
    !host && frame::type_of(frame) != Frame::OUR_TYPE
}

// Cause 8.
fn has_no_hops(host: bool, frame: &[u8]) -> bool
    ensures { result ≡ spec.no_hops host frame.now }
{
    !host && frame::header_in(frame).hc == 0
}

// Cause 9.
fn is_too_short(host: bool, frame: &[u8], room: usize) -> bool
    ensures { result ≡ spec.too_short host (length frame.now) room }
{
    if host {
        room < frame.len() + Frame::TAG
    } else {
        room < frame.len()
    }
}

// Refusals 2 to 9.
#[tactic(auto, unfolding(crate::specs::Step::refusal_but1))]
pub fn check_frame(s: Setup, port: u8, frame: &[u8], room: usize) -> Result<(), Refusal>
    ensures refused { refused_as result ≡ spec.refusal_but1 s port frame.now room }
    ensures port { OnOk result (port < 16) }
{
    let host = has_port(s.host, port);
    Refusal::NoSuchPort.when(s.ports <= port)?;
    Refusal::PortDown.when(!has_port(s.live, port))?;
    Refusal::BadLength.when(is_bad_length(host, frame.len()))?;
    Refusal::BadSource.when(!wire::is_source(frame::source_of(frame)))?;
    Refusal::TaggedInside.when(has_tag_inside(host, frame))?;
    Refusal::NotTagged.when(lacks_tag(host, frame))?;
    Refusal::NoHops.when(has_no_hops(host, frame))?;
    Refusal::NoRoom.when(is_too_short(host, frame, room))
}
