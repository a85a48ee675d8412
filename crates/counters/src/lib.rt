// The counters of a bench, and the public event that brings them up to date.
//
// The caller lends one record of seven. An event checks 34, then 28, then its own causes, before
// anything is added; what it adds is read off its answer, so that the counters are what the history
// of events and answers says. The event on counters by value is proved first, and the one that takes
// a lent record is thin over it.
#![tactic(auto)]

ghost use Rattle.std.specs.Prelude.{OnOk, ◌≡◌, ◌^◌, ◌<◌, ◌≤◌};
ghost use Rattle.refusal.specs.Number.{refused_as};
ghost use Rattle.flight.specs.Flight.{most};
ghost use Rattle.counters.specs.Counters as spec;
ghost use Rattle.counters.specs.Counters.{Below, counters_fit, no_counts};
ghost use Rattle.counters.specs.Event.{Happens, Passes, event_refusal, happens_as, happens_of, most_events};

use bench::Bench;
use event::Event;
use refusal::Refusal;
use turn::{Done, check_event};

// Placed, taken, cut and lost count copies, delivered pairs of a host and an event, overwritten steps.
#[derive(Clone, Copy, PartialEq, Eq)]
pub struct Counters {
    pub placed: u64,
    pub taken: u64,
    pub cut: u64,
    pub lost: u64,
    pub delivered: u64,
    pub overwritten: u64,
    pub accepted: u64,
}

// What an event did, with the counters behind it.
#[derive(Clone, Copy)]
pub struct Counted {
    pub done: Done,
    pub counters: Counters,
}

impl Counters {
    // So many events are accepted, and no more.
    pub const MOST_EVENTS: u64 = 1_000_000;

    // A step sends on at most so many ports, so no counter is above so many times accepted.
    const PORTS: u64 = 8;

    pub fn zero() -> Self
        ensures { result ≡ no_counts }
    {
        Counters {
            placed: 0,
            taken: 0,
            cut: 0,
            lost: 0,
            delivered: 0,
            overwritten: 0,
            accepted: 0,
        }
    }

    // Their part of refusal 28. With fewer than a million events no sum is too large.
    #[tactic(auto, unfolding(crate::specs::Counters::counters_fit))]
    fn fit(self, flying: usize) -> bool
        requires { (self.accepted < most_events) × (flying ≤ most) }
        ensures { result ≡ counters_fit flying self }
    {
        let bound = Counters::PORTS * self.accepted;
        self.taken <= bound
            && self.cut <= bound
            && self.lost <= bound
            && self.delivered <= bound
            && self.overwritten <= bound
            && self.placed == self.taken + self.cut + flying as u64
    }

    // Counter by counter.
    #[tactic(auto, unfolding(crate::specs::Counters::plus))]
    fn plus(self, d: Counters) -> Self
        requires { Below (2 ^ 63) self × Below (2 ^ 63) d }
        ensures { result ≡ spec.plus self d }
    {
        Counters {
            placed: self.placed + d.placed,
            taken: self.taken + d.taken,
            cut: self.cut + d.cut,
            lost: self.lost + d.lost,
            delivered: self.delivered + d.delivered,
            overwritten: self.overwritten + d.overwritten,
            accepted: self.accepted + d.accepted,
        }
    }
}

// A step takes a copy out where its event is a taking.
fn taken_at(e: Event) -> u64
    ensures { (result ≡ spec.taken_at e) × (result < 2) }
{
    match e {
        Event::Take(_) => 1,
        Event::Present(_) | Event::Link(_) => 0,
    }
}

// What an event adds to each, by what it did.
#[tactic(auto, using(frame::proofs::Laws::flag_bit), unfolding(crate::specs::Counters::adds))]
fn adds(e: Event, done: Done) -> Counters
    ensures adds { result ≡ spec.adds e (Ok done) }
    ensures small { Below (2 ^ 63) result }
{
    match done {
        Done::Stepped(r) => Counters {
            placed: r.placed as u64,
            taken: taken_at(e),
            cut: 0,
            lost: r.lost as u64,
            delivered: r.received.count_ones() as u64,
            overwritten: r.overwrote as u64,
            accepted: 1,
        },
        Done::Linked(cut) => Counters {
            placed: 0,
            taken: 0,
            cut: cut as u64,
            lost: 0,
            delivered: 0,
            overwritten: 0,
            accepted: 1,
        },
    }
}

// 34, then 28, then the event's own causes.
#[tactic(auto, using(crate::proofs::Fit::found_fit), unfolding(crate::specs::Event::event_refusal, turn::specs::Turn::own_refusal))]
fn check(bench: &Bench, e: Event, c: Counters) -> Result<(), Refusal>
    ensures refusal { refused_as result ≡ event_refusal bench.now c e }
    ensures passes { OnOk result (Passes bench.now c e) }
{
    Refusal::TooManyEvents.when(Counters::MOST_EVENTS <= c.accepted)?;
    Refusal::OutOfShape.when(!bench.is_in_shape())?;
    Refusal::OutOfShape.when(!c.fit(bench.flying))?;
    check_event(&bench.network, bench.flying, e)
}

// The event on counters by value; refused, it leaves the bench as it was.
pub fn happens(bench: &mut Bench, e: Event, c: Counters) -> Result<Counted, Refusal>
    ensures { happens_as bench.new c result ≡ happens_of bench.old e c }
{
    check(bench, e, c)?;
    let done = bench.happen(e);
    Ok(Counted {
        done,
        counters: c.plus(adds(e, done)),
    })
}

// The public event: it brings the lent counters up to date; refused, it changes nothing.
pub fn event(bench: &mut Bench, e: Event, c: &mut Counters) -> Result<Done, Refusal>
    ensures { Happens bench.old c.old e result bench.new c.new }
{
    let counted = happens(bench, e, *c)?;
    *c = counted.counters;
    Ok(counted.done)
}
