// Rules 1 to 11 of the practical AXE algorithm, as document 01 fixes them: flood, drop duplicates,
// learn. Each rule is a function of its own number, on the table's three arrays and the filter as
// they are lent. What a rule leaves is said of all of them at once.
#![tactic(auto)]

pub mod masks;

ghost use Rattle.std.specs.Prelude.{false, List, ◌≡◌, ℕ, ◌<◌};
ghost use Rattle.filter.specs.Filter.{holds, overwrites, recorded};
ghost use Rattle.frame.specs.Frame.{header_in};
ghost use Rattle.table.specs.Table.{Sized, learned_of, table_of};
ghost use Rattle.rules.specs.Rules as spec;
ghost use Rattle.rules.specs.Verdict.{letter_of, sending_of, sent_by};

use filter::Recorded;
use frame::{Frame, Header};
use masks::{all_but, has_port, only_port};
use table::{Entry, Table, erase_in, learn_in, lookup_in};

#[derive(Clone, Copy, PartialEq, Eq)]
pub struct Setup {
    pub ports: u8,
    // Bit p of a mask stands for port p.
    pub live: u16,
    pub host: u16,
    pub limit: u8,
    pub salt: u32,
}

// A frame as rules 2 to 11 see it: with the header that rule 1 gave it.
#[derive(Clone, Copy, PartialEq, Eq)]
pub struct Arrival {
    pub port: u8,
    pub source: u64,
    pub destination: u64,
    pub header: Header,
}

// Every copy of one step carries the same header.
#[derive(Clone, Copy, PartialEq, Eq)]
pub struct Send {
    pub mask: u16,
    pub header: Header,
}

#[derive(Clone, Copy, PartialEq, Eq)]
pub enum Verdict {
    X,
    D,
    G,
    E,
    F(Send),
    N(Send),
    B(Send),
    H(Send),
    U(Send),
}

// A verdict, and whether the record that came with it overwrote another triple.
#[derive(Clone, Copy, PartialEq, Eq)]
pub struct Outcome {
    pub verdict: Verdict,
    pub overwrote: bool,
}

#[derive(Clone, Copy, PartialEq, Eq)]
pub struct Report {
    pub verdict: Verdict,
    pub full: bool,
    pub overwrote: bool,
}

// What a verdict sends.
pub fn sending_of(v: Verdict) -> Option<Send>
    ensures { result ≡ sending_of v }
{
    match v {
        Verdict::X | Verdict::D | Verdict::G | Verdict::E => None,
        Verdict::F(s) | Verdict::N(s) | Verdict::B(s) | Verdict::H(s) | Verdict::U(s) => Some(s),
    }
}

// The mask and the header of what a verdict sends: 0 after a drop.
pub fn sent_by(v: Verdict) -> Send
    ensures { result ≡ sent_by (sending_of v) }
{
    sending_of(v).unwrap_or(Send {
        mask: 0,
        header: Header {
            l: false,
            f: false,
            hc: 0,
            nonce: 0,
        },
    })
}

// Its letter, as the byte that is printed.
pub fn letter_of(v: Verdict) -> u8
    ensures { result ≡ letter_of v }
{
    match v {
        Verdict::X => b'X',
        Verdict::D => b'D',
        Verdict::G => b'G',
        Verdict::E => b'E',
        Verdict::F(_) => b'F',
        Verdict::N(_) => b'N',
        Verdict::B(_) => b'B',
        Verdict::H(_) => b'H',
        Verdict::U(_) => b'U',
    }
}

// Rule 1 on a switch port: a hop count that was read has six bits, so it has room for one more.
#[tactic(auto, using(frame::proofs::Laws::hc_small))]
fn hop_header(frame: &[u8]) -> Header
    ensures { result ≡ spec.hop_header (header_in frame.now) }
{
    let h = frame::header_in(frame);
    Header { hc: h.hc + 1, ..h }
}

// Rule 1.
pub fn rule1(s: Setup, nonce: u32, table: &Table, port: u8, frame: &[u8]) -> Arrival
    ensures { result ≡ spec.rule1 s nonce table.now port frame.now }
{
    rule1_in(
        s,
        nonce,
        &table.addresses,
        &table.ports,
        &table.hops,
        port,
        frame,
    )
}

// Rule 1 on a table's lent arrays.
#[tactic(auto, unfolding(crate::specs::Rules::rule1))]
pub fn rule1_in(
    s: Setup,
    nonce: u32,
    addresses: &[u64],
    ports: &[u8],
    hops: &[u8],
    port: u8,
    frame: &[u8],
) -> Arrival
    requires { Sized (table_of addresses.now ports.now hops.now) }
    ensures { result ≡ spec.rule1 s nonce (table_of addresses.now ports.now hops.now) port frame.now }
{
    let source = frame::source_of(frame);
    let header = if has_port(s.host, port) {
        Header {
            l: true,
            f: lookup_in(addresses, ports, hops, source).is_none(),
            hc: 1,
            nonce,
        }
    } else {
        hop_header(frame)
    };
    Arrival {
        port,
        source,
        destination: frame::destination_of(frame),
        header,
    }
}

// The nonce advances on a host port, 2^24 - 1 to 0.
#[tactic(auto, unfolding(crate::specs::Rules::nonce_on))]
pub fn nonce_after(s: Setup, nonce: u32, port: u8) -> u32
    ensures { result ≡ spec.nonce_on s nonce port }
{
    if has_port(s.host, port) {
        return (nonce % Frame::NONCES + 1) % Frame::NONCES;
    }
    nonce
}

// A verdict that records nothing.
fn plainly(verdict: Verdict) -> Outcome
    ensures { result ≡ spec.outcome verdict false }
{
    Outcome {
        verdict,
        overwrote: false,
    }
}

// Rule 2, where the hop count is above the limit.
#[tactic(auto, unfolding(crate::specs::Rules::rule2))]
fn rule2(addresses: &mut [u64], ports: &mut [u8], hops: &mut [u8], a: Arrival) -> Outcome
    requires { Sized (table_of addresses.old ports.old hops.old) }
    ensures after { (f : List ℕ) → spec.left (table_of addresses.new ports.new hops.new) f result ≡ spec.rule2 (table_of addresses.old ports.old hops.old) f a }
    ensures sized { Sized (table_of addresses.new ports.new hops.new) }
{
    if !a.header.f {
        erase_in(addresses, ports, hops, a.destination);
    }
    plainly(Verdict::X)
}

// The filter is asked for an arrival's triple under a header, and then has it.
fn noted(s: Setup, filter: &mut [u8], a: Arrival, h: Header) -> Recorded
    ensures duplicate { result.duplicate ≡ holds filter.old s.salt (spec.triple_of a h) }
    ensures overwrote { result.overwrote ≡ overwrites filter.old s.salt (spec.triple_of a h) }
    ensures filter { filter.new ≡ recorded filter.old s.salt (spec.triple_of a h) }
{
    let key = filter::triple_of(a.source, h.nonce, h.l as u8);
    filter::record(filter, s.salt, &key)
}

// Rule 3: F set, the filter is asked and the triple recorded; F clear, neither.
#[tactic(auto, unfolding(crate::specs::Rules::is_duplicate, crate::specs::Rules::overwrote3, crate::specs::Rules::rule3))]
fn rule3(s: Setup, filter: &mut [u8], a: Arrival) -> Recorded
    ensures duplicate { result.duplicate ≡ spec.is_duplicate s filter.old a }
    ensures overwrote { result.overwrote ≡ spec.overwrote3 s filter.old a }
    ensures filter { filter.new ≡ spec.rule3 s filter.old a }
{
    if a.header.f {
        return noted(s, filter, a, a.header);
    }
    Recorded {
        duplicate: false,
        overwrote: false,
    }
}

// Whether rule 5 erases.
#[tactic(auto, unfolding(crate::specs::Rules::erases))]
fn erases(a: Arrival, duplicate: bool, found: Option<Entry>) -> bool
    ensures { result ≡ spec.erases a duplicate found }
{
    !duplicate && !a.header.l && found.is_some_and(|e| e.hops == 1)
}

// Whether rule 6 learns.
#[tactic(auto, unfolding(crate::specs::Rules::learns))]
fn learns(a: Arrival, duplicate: bool, found: Option<Entry>) -> bool
    ensures { result ≡ spec.learns a duplicate found }
{
    found.is_none_or(|e| a.header.hc < e.hops) || (a.header.l && !duplicate)
}

#[tactic(auto, unfolding(crate::specs::Rules::rule5))]
fn rule5(
    addresses: &mut [u64],
    ports: &mut [u8],
    hops: &mut [u8],
    a: Arrival,
    duplicate: bool,
    found: Option<Entry>,
)
    requires { Sized (table_of addresses.old ports.old hops.old) }
    ensures table { table_of addresses.new ports.new hops.new ≡ spec.rule5 (table_of addresses.old ports.old hops.old) a duplicate found }
    ensures sized { Sized (table_of addresses.new ports.new hops.new) }
{
    if erases(a, duplicate, found) {
        erase_in(addresses, ports, hops, a.destination);
    }
}

// Says whether the table was full.
#[tactic(auto, unfolding(crate::specs::Rules::rule6))]
fn rule6(
    addresses: &mut [u64],
    ports: &mut [u8],
    hops: &mut [u8],
    a: Arrival,
    duplicate: bool,
    found: Option<Entry>,
) -> bool
    requires { Sized (table_of addresses.old ports.old hops.old) }
    ensures learned { learned_of result (table_of addresses.new ports.new hops.new) ≡ spec.rule6 (table_of addresses.old ports.old hops.old) a duplicate found }
    ensures sized { Sized (table_of addresses.new ports.new hops.new) }
{
    learns(a, duplicate, found) && learn_in(addresses, ports, hops, a.source, a.port, a.header.hc)
}

// Rules 4 to 6: the source's entry is read before rule 5 may erase it.
#[tactic(auto, unfolding(crate::specs::Rules::learning))]
fn learning(
    addresses: &mut [u64],
    ports: &mut [u8],
    hops: &mut [u8],
    a: Arrival,
    duplicate: bool,
) -> bool
    requires { Sized (table_of addresses.old ports.old hops.old) }
    ensures learned { learned_of result (table_of addresses.new ports.new hops.new) ≡ spec.learning (table_of addresses.old ports.old hops.old) a duplicate }
    ensures sized { Sized (table_of addresses.new ports.new hops.new) }
{
    let found = lookup_in(addresses, ports, hops, a.source);
    rule5(addresses, ports, hops, a, duplicate, found);
    rule6(addresses, ports, hops, a, duplicate, found)
}

// The entry of an address whose port is up.
#[tactic(auto, unfolding(crate::specs::Rules::standing))]
fn standing(s: Setup, addresses: &[u64], ports: &[u8], hops: &[u8], address: u64) -> Option<Entry>
    requires { Sized (table_of addresses.now ports.now hops.now) }
    ensures entry { result ≡ spec.standing s (table_of addresses.now ports.now hops.now) address }
    ensures port { spec.PortWithin result }
{
    lookup_in(addresses, ports, hops, address).filter(|e| has_port(s.live, e.port))
}

// Rule 9, where no entry for the destination stands. The first switch keeps L, and its flood leaves the arrival port out.
#[tactic(auto, unfolding(crate::specs::Rules::rule9))]
fn rule9(s: Setup, filter: &mut [u8], a: Arrival) -> Outcome
    requires { a.port < 16 }
    ensures { (t : Table) → spec.left t filter.new result ≡ spec.rule9 s t filter.old a }
{
    let h = a.header;
    if !h.l {
        return plainly(Verdict::G);
    }
    let first = h.hc == 1;
    let header = Header {
        l: first,
        f: true,
        ..h
    };
    let overwrote = noted(s, filter, a, header).overwrote;
    let verdict = if first {
        Verdict::N(Send {
            mask: all_but(a.port, s.live),
            header,
        })
    } else {
        Verdict::B(Send {
            mask: s.live,
            header,
        })
    };
    Outcome { verdict, overwrote }
}

// Rule 10, where the destination's entry names the arrival port.
#[tactic(auto, unfolding(crate::specs::Rules::rule10))]
fn rule10(addresses: &mut [u64], ports: &mut [u8], hops: &mut [u8], a: Arrival) -> Outcome
    requires { Sized (table_of addresses.old ports.old hops.old) × (a.port < 16) }
    ensures after { (f : List ℕ) → spec.left (table_of addresses.new ports.new hops.new) f result ≡ spec.rule10 (table_of addresses.old ports.old hops.old) f a }
    ensures sized { Sized (table_of addresses.new ports.new hops.new) }
{
    if a.header.l {
        return plainly(Verdict::H(Send {
            mask: only_port(a.port),
            header: Header {
                l: false,
                ..a.header
            },
        }));
    }
    erase_in(addresses, ports, hops, a.destination);
    plainly(Verdict::E)
}

// Rules 9 to 11, by the destination's entry.
#[tactic(auto, unfolding(crate::specs::Rules::onward, crate::specs::Rules::rule11))]
fn onward(
    s: Setup,
    addresses: &mut [u64],
    ports: &mut [u8],
    hops: &mut [u8],
    filter: &mut [u8],
    a: Arrival,
) -> Outcome
    requires { Sized (table_of addresses.old ports.old hops.old) × (a.port < 16) }
    ensures after { spec.left (table_of addresses.new ports.new hops.new) filter.new result ≡ spec.onward s (table_of addresses.old ports.old hops.old) filter.old a }
    ensures sized { Sized (table_of addresses.new ports.new hops.new) }
{
    let Some(e) = standing(s, addresses, ports, hops, a.destination) else {
        return rule9(s, filter, a);
    };
    if e.port == a.port {
        return rule10(addresses, ports, hops, a);
    }
    plainly(Verdict::U(Send {
        mask: only_port(e.port),
        header: a.header,
    }))
}

// Rules 7 to 11.
#[tactic(auto, unfolding(crate::specs::Rules::forwarding))]
fn forwarding(
    s: Setup,
    addresses: &mut [u64],
    ports: &mut [u8],
    hops: &mut [u8],
    filter: &mut [u8],
    a: Arrival,
    duplicate: bool,
) -> Outcome
    requires { Sized (table_of addresses.old ports.old hops.old) × (a.port < 16) }
    ensures after { spec.left (table_of addresses.new ports.new hops.new) filter.new result ≡ spec.forwarding s (table_of addresses.old ports.old hops.old) filter.old a duplicate }
    ensures sized { Sized (table_of addresses.new ports.new hops.new) }
{
    if duplicate {
        return plainly(Verdict::D);
    }
    if a.header.f {
        return plainly(Verdict::F(Send {
            mask: all_but(a.port, s.live),
            header: a.header,
        }));
    }
    onward(s, addresses, ports, hops, filter, a)
}

fn report_of(full: bool, overwrote: bool, o: Outcome) -> Report
    ensures { result ≡ spec.report_of full overwrote o }
{
    Report {
        verdict: o.verdict,
        full,
        overwrote: overwrote || o.overwrote,
    }
}

// Rules 2 to 11.
pub fn rules(s: Setup, table: &mut Table, filter: &mut [u8], a: Arrival) -> Report
    requires { a.port < 16 }
    ensures { spec.ruled_as table.new filter.new result ≡ spec.rules s table.old filter.old a }
{
    rules_in(
        s,
        &mut table.addresses,
        &mut table.ports,
        &mut table.hops,
        filter,
        a,
    )
}

// Rules 2 to 11 on a table's lent arrays.
#[tactic(auto, unfolding(crate::specs::Rules::rules))]
pub fn rules_in(
    s: Setup,
    addresses: &mut [u64],
    ports: &mut [u8],
    hops: &mut [u8],
    filter: &mut [u8],
    a: Arrival,
) -> Report
    requires { Sized (table_of addresses.old ports.old hops.old) × (a.port < 16) }
    ensures after { spec.ruled_as (table_of addresses.new ports.new hops.new) filter.new result ≡ spec.rules s (table_of addresses.old ports.old hops.old) filter.old a }
    ensures sized { Sized (table_of addresses.new ports.new hops.new) }
{
    if s.limit < a.header.hc {
        return report_of(false, false, rule2(addresses, ports, hops, a));
    }
    let asked = rule3(s, filter, a);
    let full = learning(addresses, ports, hops, a, asked.duplicate);
    let o = forwarding(s, addresses, ports, hops, filter, a, asked.duplicate);
    report_of(full, asked.overwrote, o)
}
