// One record and its bytes. Whether a record is whole is asked once, before it is read.
ghost use Rattle.std.specs.Prelude.{◌≡◌, ◌+◌, ◌≤◌, drop, length, IfOk, IfErr};
ghost use Rattle.wire.specs.Wire.{put};
ghost use Rattle.network.specs.Format.{byte_of, encode, headless, is_event, length_of, port_in, record_of, start_of};

use crate::{Host, Link, Port, Record, Switch};
use refusal::Refusal;

// The kinds of records, by their byte.
#[derive(Clone, Copy)]
enum Kind {
    Switch = 1,
    Host = 2,
    Link = 3,
}

const SWITCH_LENGTH: u8 = 7;

const HOST_LENGTH: u8 = 9;

const LINK_LENGTH: u8 = 5;

// What a record takes: its length doesn't count its own two bytes.
pub(crate) const SWITCH_SIZE: usize = 9;

pub(crate) const HOST_SIZE: usize = 11;

pub(crate) const LINK_SIZE: usize = 7;

// The first and the last kind of event: a description ends before them.
const FIRST_EVENT: u8 = 4;

const LAST_EVENT: u8 = 6;

impl Kind {
    // The kind that a byte names, if it names one.
    #[tactic(auto, unfolding(crate::specs::Format::length_of))]
    fn of(byte: u8) -> Result<Kind, Refusal>
        ensures known { IfOk result (λ kind. byte_of kind ≡ byte) }
        ensures unknown { IfErr result (λ r. (r ≡ Refusal.BadRecord) × (length_of byte ≡ 0)) }
    {
        match byte {
            1 => Ok(Kind::Switch),
            2 => Ok(Kind::Host),
            3 => Ok(Kind::Link),
            _ => Err(Refusal::BadRecord),
        }
    }

    // What the length of its records says.
    #[tactic(auto, unfolding(crate::specs::Format::length_of))]
    fn length(self) -> u8
        ensures value { result ≡ length_of (byte_of self) }
        ensures least { 5 ≤ result }
    {
        match self {
            Kind::Switch => SWITCH_LENGTH,
            Kind::Host => HOST_LENGTH,
            Kind::Link => LINK_LENGTH,
        }
    }
}

#[tactic(auto, unfolding(crate::specs::Format::is_event))]
fn is_event(kind: u8) -> bool
    ensures { result ≡ is_event kind }
{
    FIRST_EVENT <= kind && kind <= LAST_EVENT
}

fn port_at(body: &[u8], at: usize) -> Port
    requires { at + 2 ≤ length body.now }
    ensures { result ≡ port_in at body.now }
{
    Port {
        switch: body[at],
        number: body[at + 1],
    }
}

// The record of a kind that a body starts with.
#[tactic(auto, unfolding(crate::specs::Format::record_of))]
fn record_of(kind: Kind, body: &[u8]) -> Record
    requires { 4 ≤ length body.now }
    ensures { result ≡ record_of (byte_of kind) body.now }
{
    match kind {
        Kind::Switch => Record::Switch(Switch {
            ports: body[0],
            limit: body[1],
            salt: wire::number_at(body, 2, 4) as u32,
        }),
        Kind::Host => Record::Host(Host {
            port: port_at(body, 0),
            address: wire::number_at(body, 2, 6),
        }),
        Kind::Link => Record::Link(Link {
            first: port_at(body, 0),
            second: port_at(body, 2),
        }),
    }
}

// The bytes are cut short before a kind byte, or their length is 0.
#[tactic(auto, unfolding(crate::specs::Format::headless))]
fn is_headless(bytes: &[u8]) -> bool
    ensures { result ≡ headless bytes.now }
{
    bytes.len() < 3 || wire::number_at(bytes, 0, 2) == 0
}

// What the input starts with from a place on: a record, or the description's end.
#[tactic(auto, unfolding(crate::specs::Format::start_of, crate::specs::Format::headless, crate::specs::Format::misfit))]
pub(crate) fn start_at(input: &[u8], at: usize) -> Result<Option<Record>, Refusal>
    requires { at ≤ length input.now }
    ensures { result ≡ start_of (drop at input.now) }
{
    let bytes = &input[at..];
    if bytes.is_empty() {
        return Ok(None);
    }
    Refusal::BadRecord.when(is_headless(bytes))?;
    if is_event(bytes[2]) {
        return Ok(None);
    }
    let kind = Kind::of(bytes[2])?;
    let long = kind.length() as usize;
    Refusal::BadRecord.when(wire::number_at(bytes, 0, 2) != long as u64)?;
    Refusal::BadRecord.when(bytes.len() < long + 2)?;
    Ok(Some(record_of(kind, &bytes[3..])))
}

// How many bytes a record takes.
#[tactic(auto, unfolding(crate::specs::Format::encode, crate::specs::Format::kind_of, crate::specs::Format::body_of, crate::specs::Format::length_of))]
pub(crate) fn size(r: Record) -> usize
    ensures { result ≡ length (encode r) }
{
    match r {
        Record::Switch(_) => SWITCH_SIZE,
        Record::Host(_) => HOST_SIZE,
        Record::Link(_) => LINK_SIZE,
    }
}

#[tactic(auto, unfolding(crate::specs::Format::encode, crate::specs::Format::kind_of, crate::specs::Format::body_of, crate::specs::Format::length_of))]
fn switch_bytes(s: Switch) -> [u8; SWITCH_SIZE]
    ensures { result ≡ encode (Record.Switch s) }
{
    let [a, b, c, d] = s.salt.to_be_bytes();
    [
        0,
        SWITCH_LENGTH,
        Kind::Switch as u8,
        s.ports,
        s.limit,
        a,
        b,
        c,
        d,
    ]
}

#[tactic(auto, unfolding(crate::specs::Format::encode, crate::specs::Format::kind_of, crate::specs::Format::body_of, crate::specs::Format::length_of))]
fn host_bytes(h: Host) -> [u8; HOST_SIZE]
    ensures { result ≡ encode (Record.Host h) }
{
    let [_, _, a, b, c, d, e, f] = h.address.to_be_bytes();
    let p = h.port;
    [
        0,
        HOST_LENGTH,
        Kind::Host as u8,
        p.switch,
        p.number,
        a,
        b,
        c,
        d,
        e,
        f,
    ]
}

#[tactic(auto, unfolding(crate::specs::Format::encode, crate::specs::Format::kind_of, crate::specs::Format::body_of, crate::specs::Format::length_of))]
fn link_bytes(l: Link) -> [u8; LINK_SIZE]
    ensures { result ≡ encode (Record.Link l) }
{
    [
        0,
        LINK_LENGTH,
        Kind::Link as u8,
        l.first.switch,
        l.first.number,
        l.second.switch,
        l.second.number,
    ]
}

// Puts a record's bytes into the output from a place on.
pub(crate) fn put_record(out: &mut [u8], at: usize, r: Record)
    requires { at + length (encode r) ≤ length out.old }
    ensures { out.new ≡ put out.old at (encode r) }
{
    match r {
        Record::Switch(s) => wire::put_at(out, at, &switch_bytes(s)),
        Record::Host(h) => wire::put_at(out, at, &host_bytes(h)),
        Record::Link(l) => wire::put_at(out, at, &link_bytes(l)),
    }
}
