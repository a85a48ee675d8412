// The run: one loop over the events of an input.
ghost use Rattle.std.specs.Prelude.{◌≡◌, ◌≤◌};
ghost use Rattle.flight.specs.Flight.{most};
ghost use Rattle.transcript.specs.Transcript.{line_for};
ghost use Rattle.transcript.specs.Running.{Acts, CanAct, CanRun, FreshParts, Ran};

use cabling::{Stand, setup_of};
use event::{Event, letter_of, read_event, size_of};
use flight::{Copy, Flight};
use lines::{Line, put_line, put_stop};
use network::Network;
use refusal::Refusal;
use rules::Setup;
use seat::Seat;
use turn::{Done, check_event, head_of, received_by, refusal_of, turn, verdict_of};

// What a run keeps of a bench. A head's setup is left behind here: it is worked out when its turn comes.
#[derive(Drop)]
struct Parts {
    up: [bool; Network::LINKS],
    seats: [Seat; Network::SWITCHES],
    flight: Flight,
}

impl Parts {
    // All links up, nothing learned, no copy in flight.
    fn fresh() -> Self
        ensures { FreshParts result }
    {
        let none = Seat::fresh(Setup {
            ports: 0,
            live: 0,
            host: 0,
            limit: 0,
            salt: 0,
        });
        Parts {
            up: [true; Network::LINKS],
            seats: [none; Network::SWITCHES],
            flight: Flight {
                words: [[0; 3]; Copy::MOST],
                flying: 0,
            },
        }
    }

    // An event on a bench in shape: its own causes, then the turn of its head, under the masks that
    // the links give.
    fn act(&mut self, stand: &Stand, e: Event) -> Result<Done, Refusal>
        requires { CanAct stand.now.network self.old e }
        ensures { Acts stand.now.network self.old e result self.new }
    {
        check_event(&stand.network, self.flight.flying, e)?;
        let k = head_of(&stand.network, &self.flight.words, e);
        let setup = setup_of(&stand.network, &stand.plugs, &self.up, k);
        let seat = &mut self.seats[k as usize];
        seat.set_up(setup);
        let done = turn(stand, &mut self.up, seat, &mut self.flight, e);
        Ok(done)
    }
}

// An event's line, with the copies in flight behind it.
#[tactic(auto, unfolding(crate::specs::Transcript::line_for))]
fn line_for(number: u32, e: Event, a: Result<Done, Refusal>, flying: usize) -> Line
    requires { flying ≤ most }
    ensures { result ≡ line_for number e a flying }
{
    Line {
        number,
        letter: letter_of(e),
        refusal: refusal_of(a),
        verdict: verdict_of(a),
        received: received_by(a),
        flying: flying as u16,
    }
}

// The lines of the events from a place of the input on; where they end in the output.
pub fn run(stand: &Stand, input: &[u8], start: usize, out: &mut [u8]) -> usize
    requires { CanRun stand.now.network input.now out.old }
    ensures { Ran stand.now.network input.now start out.old result out.new }
{
    let mut parts = Parts::fresh();
    let mut number: u32 = 1;
    let mut at = start;
    let mut wrote: usize = 0;
    // By a place: how long its record is says where the next event stands.
    while at < input.len() {
        let Ok(e) = read_event(input, at) else {
            return put_stop(out, wrote);
        };
        let answer = parts.act(stand, e);
        wrote = put_line(out, wrote, line_for(number, e, answer, parts.flight.flying));
        at += size_of(e);
        number += 1;
    }
    wrote
}
