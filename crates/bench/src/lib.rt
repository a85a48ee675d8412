// The bench: a stand's heads, its links' states and the copies in flight, on which planners try a
// stand before it is cabled.
//
// A bench is one value, which an event changes in place: the head whose turn it is lends itself to
// the turn, and then all heads follow the links' states.
#![tactic(auto)]

ghost use Rattle.std.specs.Prelude.{true, ◌≡◌, ◌<◌, ◌≤◌, length};
ghost use Rattle.network.specs.Network.{most_switches};
ghost use Rattle.bench.specs.Bench.{Freshens, fresh_bench, fresh_or_empty};
ghost use Rattle.bench.specs.Events as spec;
ghost use Rattle.bench.specs.Events.{event_of, happened_as};
ghost use Rattle.bench.specs.Shape.{Accepted, InShape, in_shape};

mod shape;

use cabling::{Stand, setup_of};
use event::Event;
use flight::{Copy, Flight, copies_of, words_of};
use network::Network;
use refusal::Refusal;
use rules::Setup;
use seat::Seat;
use shape::{copies_fit, seats_fit};
use turn::{Done, head_of, turn};

#[derive(Clone, Copy, PartialEq, Eq)]
pub struct Bench {
    pub network: Network,
    // A link's state: whether it is up.
    pub up: [bool; Network::LINKS],
    pub seats: [Seat; Network::SWITCHES],
    // The list of copies is the start of the array.
    pub copies: [Copy; Copy::MOST],
    pub flying: usize,
}

// All heads' ports, limits, salts and masks follow from description and link states. By number: a
// head's setup is asked for by it, and places behind the last head stay.
fn follow(stand: &Stand, up: &[bool], seats: &mut [Seat])
    requires { stand.now.network.nswitches ≤ length seats.old }
    ensures { seats.new ≡ spec.follow stand.now.network up.now 0 seats.old }
{
    for k in 0..stand.network.nswitches {
        let setup = setup_of(&stand.network, &stand.plugs, up, k);
        seats[k as usize].set_up(setup);
    }
}

impl Bench {
    // All links up, no copy in flight, and each head fresh: one of no setup, which then follows.
    fn new(n: &Network) -> Self
        requires { n.now.nswitches ≤ most_switches }
        ensures { result ≡ fresh_bench n.now }
    {
        let up = [true; Network::LINKS];
        let none = Seat::fresh(Setup {
            ports: 0,
            live: 0,
            host: 0,
            limit: 0,
            salt: 0,
        });
        let mut seats = [none; Network::SWITCHES];
        follow(&Stand::new(*n), &up, &mut seats);
        Bench {
            network: *n,
            up,
            seats,
            copies: [Copy::empty(); Copy::MOST],
            flying: 0,
        }
    }

    // A fresh bench of a network that the writer accepts.
    pub fn fresh(n: &Network) -> Result<Bench, Refusal>
        ensures { Freshens n.now result }
    {
        n.check()?;
        Ok(Bench::new(n))
    }

    // The bench that stands beside that answer: of a network that is refused, the empty one's.
    pub fn fresh_or_empty(n: &Network) -> Bench
        ensures { result ≡ fresh_or_empty n.now }
    {
        match Bench::fresh(n) {
            Ok(bench) => bench,
            Err(_) => Bench::new(&Network::empty()),
        }
    }

    // Whether the bench is in shape.
    pub fn is_in_shape(&self) -> bool
        ensures test { result ≡ in_shape self.now }
        ensures shape { result ≡ true → InShape self.now }
    {
        self.network.check().is_ok()
            && seats_fit(&self.network, &self.up, &self.seats)
            && self.flying <= Copy::MOST
            && copies_fit(self.network.nlinks, &self.up, &self.copies[..self.flying])
    }

    // What an event does that nothing refuses: one head takes its turn, and all heads follow.
    pub fn happen(&mut self, e: Event) -> Done
        requires { Accepted self.old e }
        ensures { happened_as self.new (Ok result) ≡ event_of self.old e }
    {
        let stand = Stand::new(self.network);
        let words = words_of(&self.copies, self.flying);
        let mut flight = Flight {
            words,
            flying: self.flying,
        };
        let k = head_of(&self.network, &flight.words, e) as usize;
        let done = turn(&stand, &mut self.up, &mut self.seats[k], &mut flight, e);
        follow(&stand, &self.up, &mut self.seats);
        self.copies = copies_of(&flight.words, flight.flying);
        self.flying = flight.flying;
        done
    }
}
