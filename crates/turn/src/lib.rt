// A head's turn at an event, on the parts of a bench, all lent: the head, the links' states and the
// packed copies, so that a run copies none of them. The stand's plugs are worked out once for a
// whole run.
#![tactic(auto)]

pub mod sending;

ghost use Rattle.std.specs.Prelude.{Bool, List, ◌≡◌, ℕ, ◌<◌, length, take};
ghost use Rattle.refusal.specs.Number.{refused_as};
ghost use Rattle.network.specs.Network.{most_links};
ghost use Rattle.flight.specs.Flight.{copies_in, without};
ghost use Rattle.seat.specs.declared.Seat.{Seat};
ghost use Rattle.seat.specs.Seat.{seat_of};
ghost use Rattle.turn.specs.Send.{Written};
ghost use Rattle.turn.specs.Turn as spec;
ghost use Rattle.turn.specs.Turn.{CanTake, CanTurn, Kept, Laid, Spares, Turns, head_of, host_of, port_to, presents, received_by, refusal_of, sets, staying, steps, takes, turn_of, verdict_of};

use cabling::{End, Stand, port_of};
use event::{Event, Setting};
use flight::{Copy, Flight, copy_at, cut, take_out};
use head::Switch;
use network::{Host, Network, Port};
use refusal::Refusal;
use rules::{Arrival, Verdict, letter_of};
use seat::{Seat, from_host, from_link, step_on};
use sending::send_out;

// What a step on the bench did: enough to count, to capture and to follow a frame by.
#[derive(Clone, Copy, PartialEq, Eq)]
pub struct Report {
    pub switch: u8,
    pub port: u8,
    pub source: u64,
    pub destination: u64,
    // With the mask and the header of what was sent.
    pub verdict: Verdict,
    pub placed: u8,
    pub lost: u8,
    // Bit i stands for host i.
    pub received: u32,
    pub overwrote: bool,
}

// A step's report, or how many copies were cut where a link was set.
#[derive(Clone, Copy, PartialEq, Eq)]
pub enum Done {
    Stepped(Report),
    Linked(u16),
}

// The refusal number, or 0.
pub fn refusal_of(a: Result<Done, Refusal>) -> u8
    ensures { result ≡ refusal_of a }
{
    match a {
        Ok(_) => 0,
        Err(r) => r.number(),
    }
}

// The letter of the verdict: R if refused, K for a link.
pub fn verdict_of(a: Result<Done, Refusal>) -> u8
    ensures { result ≡ verdict_of a }
{
    match a {
        Ok(Done::Stepped(r)) => letter_of(r.verdict),
        Ok(Done::Linked(_)) => b'K',
        Err(_) => b'R',
    }
}

// The hosts that received, bit i for host i.
pub fn received_by(a: Result<Done, Refusal>) -> u32
    ensures { result ≡ received_by a }
{
    match a {
        Ok(Done::Stepped(r)) => r.received,
        Ok(Done::Linked(_)) => 0,
        Err(_) => 0,
    }
}

// The host with a number.
#[tactic(auto, unfolding(crate::specs::Turn::host_of))]
pub fn host_of(n: &Network, i: u8) -> Host
    ensures { result ≡ host_of n.now i }
{
    n.host(i as usize)
}

// The port that receives a copy.
#[tactic(auto, unfolding(crate::specs::Turn::port_to))]
fn port_to(n: &Network, c: Copy) -> Port
    ensures { result ≡ port_to n.now c }
{
    port_of(
        n,
        End {
            link: c.link,
            second: c.second,
        },
    )
}

// Head k steps on an arrival, and what it sends goes out.
fn step_head(
    stand: &Stand,
    switch: &mut Switch,
    cells: &mut [u8],
    flight: &mut Flight,
    k: u8,
    a: Arrival,
) -> Done
    requires { a.port < 16 }
    ensures turns { (up : List Bool) → Turns (steps stand.now.network up k (seat_of switch.old cells.old) a (copies_in flight.old.flying flight.old.words)) up (seat_of switch.new cells.new) flight.new.words flight.new.flying result }
    ensures words { Written flight.old.flying flight.old.words flight.new.flying flight.new.words }
{
    let r = step_on(switch, cells, a);
    let v = r.verdict;
    let s = send_out(&stand.plugs, k, a, v, flight);
    Done::Stepped(Report {
        switch: k,
        port: a.port,
        source: a.source,
        destination: a.destination,
        verdict: v,
        placed: s.placed,
        lost: s.lost,
        received: s.received,
        overwrote: r.overwrote,
    })
}

// Kind 4: a host presents a frame and its switch steps at once.
fn present(
    stand: &Stand,
    switch: &mut Switch,
    cells: &mut [u8],
    flight: &mut Flight,
    h: Host,
    to: u64,
) -> Done
    requires { h.port.number < 16 }
    ensures turns { (up : List Bool) → Turns (presents stand.now.network up (seat_of switch.old cells.old) (copies_in flight.old.flying flight.old.words) h to) up (seat_of switch.new cells.new) flight.new.words flight.new.flying result }
    ensures words { Laid (take flight.old.flying flight.old.words) flight.old.words flight.new.flying flight.new.words }
{
    let port = h.port;
    let a = from_host(switch.nonce, &switch.table, port.number, h.address, to);
    step_head(stand, switch, cells, flight, port.switch, a)
}

// Kind 5: the copy at a place is taken out, those behind move up one, its switch steps.
fn take(
    stand: &Stand,
    switch: &mut Switch,
    cells: &mut [u8],
    flight: &mut Flight,
    place: usize,
) -> Done
    requires { CanTake stand.now.network (copies_in flight.old.flying flight.old.words) place }
    ensures turns { (up : List Bool) → Turns (takes stand.now.network up (seat_of switch.old cells.old) (copies_in flight.old.flying flight.old.words) place) up (seat_of switch.new cells.new) flight.new.words flight.new.flying result }
    ensures words { Laid (without place (take flight.old.flying flight.old.words)) flight.old.words flight.new.flying flight.new.words }
{
    let c = copy_at(&flight.words, place);
    let port = port_to(&stand.network, c);
    let a = from_link(port.number, c.source, c.destination, c.header);
    take_out(&mut flight.words, flight.flying, place);
    flight.flying -= 1;
    step_head(stand, switch, cells, flight, port.switch, a)
}

// What a link's state spares: all but the copies on it, where it is down.
fn spare(flight: &mut Flight, link: u8, state: bool)
    ensures { Spares state link flight.old.words flight.old.flying flight.new.words flight.new.flying }
{
    if !state {
        flight.flying = cut(&mut flight.words, flight.flying, link);
    }
}

// Kind 6: a link is set; set down it loses the copies on it. No head steps.
fn set_link(up: &mut [bool], flight: &mut Flight, s: Setting) -> Done
    requires { (s.link < most_links) × (length up.old ≡ most_links) }
    ensures turns { (seat : Seat) → Turns (sets up.old seat (copies_in flight.old.flying flight.old.words) s.link (spec.is_up s.state)) up.new seat flight.new.words flight.new.flying result }
    ensures words { Laid (spec.spared_words_by (spec.is_up s.state) s.link (take flight.old.flying flight.old.words)) flight.old.words flight.new.flying flight.new.words }
{
    let state = s.state == 1;
    up[s.link as usize] = state;
    let before = flight.flying;
    spare(flight, s.link, state);
    Done::Linked((before - flight.flying) as u16)
}

// The head whose turn it is.
#[tactic(auto, unfolding(crate::specs::Turn::head_of))]
pub fn head_of(network: &Network, words: &[[u64; 3]], e: Event) -> u8
    ensures accepted { (flying : ℕ) → Kept words.now flying → spec.own_refusal network.now flying e ≡ 0 → result ≡ head_of network.now (copies_in flying words.now) e }
    ensures always { result ≡ head_of network.now (copies_in (length words.now) words.now) e }
{
    match e {
        Event::Present(p) => host_of(network, p.host).port.switch,
        Event::Take(place) => port_to(network, copy_at(words, place as usize)).switch,
        Event::Link(s) => {
            let first = End {
                link: s.link,
                second: false,
            };
            port_of(network, first).switch
        }
    }
}

// A head takes its turn: a switch, its filter of any length.
#[tactic(auto, unfolding(crate::specs::Turn::turn_of, crate::specs::Turn::staying))]
pub fn turn_on(
    stand: &Stand,
    up: &mut [bool],
    switch: &mut Switch,
    cells: &mut [u8],
    flight: &mut Flight,
    e: Event,
) -> Done
    requires { (length up.old ≡ most_links) × CanTurn stand.now.network (copies_in flight.old.flying flight.old.words) e }
    ensures turns { Turns (turn_of stand.now.network up.old (seat_of switch.old cells.old) (copies_in flight.old.flying flight.old.words) e) up.new (seat_of switch.new cells.new) flight.new.words flight.new.flying result }
    ensures words { Laid (staying e (take flight.old.flying flight.old.words)) flight.old.words flight.new.flying flight.new.words }
{
    match e {
        Event::Present(p) => {
            let h = host_of(&stand.network, p.host);
            present(stand, switch, cells, flight, h, p.to.number())
        }
        Event::Take(place) => take(stand, switch, cells, flight, place as usize),
        Event::Link(s) => set_link(up, flight, s),
    }
}

// The turn of a bench's head.
pub fn turn(stand: &Stand, up: &mut [bool], seat: &mut Seat, flight: &mut Flight, e: Event) -> Done
    requires { (length up.old ≡ most_links) × CanTurn stand.now.network (copies_in flight.old.flying flight.old.words) e }
    ensures turns { Turns (turn_of stand.now.network up.old seat.old (copies_in flight.old.flying flight.old.words) e) up.new seat.new flight.new.words flight.new.flying result }
    ensures words { Laid (staying e (take flight.old.flying flight.old.words)) flight.old.words flight.new.flying flight.new.words }
{
    turn_on(stand, up, &mut seat.switch, &mut seat.cells, flight, e)
}

// An event's own refusal, 30 to 33.
#[tactic(auto, unfolding(crate::specs::Turn::own_refusal))]
pub fn check_event(network: &Network, flying: usize, e: Event) -> Result<(), Refusal>
    ensures { refused_as result ≡ spec.own_refusal network.now flying e }
{
    match e {
        Event::Present(p) => {
            Refusal::NoSuchHost.when(network.nhosts <= p.host)?;
            Refusal::ToNobody.when(p.to.number() == 0)
        }
        Event::Take(place) => Refusal::NoSuchCopy.when(flying <= place as usize),
        Event::Link(s) => Refusal::NoSuchLink.when(network.nlinks <= s.link || 2 <= s.state),
    }
}
