// What a bench in shape is asked for, refusal 28: heads and copies in flight, one by one.
ghost use Rattle.std.specs.Prelude.{EachIndex, IsTrue, ◌↔◌, true, ◌≡◌, ℕ, ◌<◌, ◌≤◌, get_or, length};
ghost use Rattle.flight.specs.Flight.{no_copy};
ghost use Rattle.turn.specs.Fits.{SeatFits};
ghost use Rattle.bench.specs.Bench.{no_seat};
ghost use Rattle.bench.specs.Shape.{copies_fit, copy_fits, has_addresses, on_live_link, seat_fits, seats_fit};

use cabling::{Stand, setup_of};
use flight::Copy;
use frame::Frame;
use network::Network;
use refusal::is_outside;
use seat::Seat;

// A head's setup follows from description and link states, and refusal 1 doesn't name it.
#[tactic(auto, unfolding(crate::specs::Shape::seat_fits))]
fn seat_fits(stand: &Stand, up: &[bool], switch: u8, seat: &Seat) -> bool
    ensures test { result ≡ seat_fits stand.now.network up.now switch seat.now }
    ensures fits { result ≡ true → SeatFits stand.now.network up.now switch seat.now }
{
    seat.switch.setup == setup_of(&stand.network, &stand.plugs, up, switch) && seat.check().is_ok()
}

// All heads fit, by number: a head's setup is asked for by it, and places behind the last head aren't
// looked at.
pub fn seats_fit(network: &Network, up: &[bool], seats: &[Seat]) -> bool
    requires { network.now.nswitches ≤ length seats.now }
    ensures test { result ≡ seats_fit network.now up.now seats.now network.now.nswitches }
    ensures fit { result ≡ true → (k : ℕ) → k < network.now.nswitches → SeatFits network.now up.now k (get_or seats.now k no_seat) }
{
    let stand = Stand::new(*network);
    for k in 0..network.nswitches {
        if !seat_fits(&stand, up, k, &seats[k as usize]) {
            return false;
        }
    }
    true
}

// A link that there is, and that is up.
#[tactic(auto, unfolding(crate::specs::Shape::on_live_link))]
fn is_on_live_link(links: u8, up: &[bool], link: u8) -> bool
    ensures { result ≡ on_live_link links up.now link }
{
    link < links && up.get(link as usize).copied().unwrap_or(false)
}

// A source that is neither zero nor group, and a destination that isn't zero.
#[tactic(auto, unfolding(crate::specs::Shape::has_addresses))]
fn has_addresses(source: u64, destination: u64) -> bool
    ensures { result ≡ has_addresses source destination }
{
    wire::is_source(source) && destination != 0 && destination < wire::ADDRESS_BOUND
}

// A copy may be in flight.
#[tactic(auto, unfolding(crate::specs::Shape::copy_fits))]
fn copy_fits(links: u8, up: &[bool], c: &Copy) -> bool
    ensures { result ≡ copy_fits links up.now c.now }
{
    is_on_live_link(links, up, c.link)
        && !is_outside(1, Frame::MAX_HC as usize, c.header.hc as usize)
        && c.header.nonce < Frame::NONCES
        && has_addresses(c.source, c.destination)
}

// All copies in flight fit.
pub fn copies_fit(links: u8, up: &[bool], copies: &[Copy]) -> bool
    ensures { IsTrue result ↔ EachIndex copies.now (λ k. IsTrue (copy_fits links up.now (get_or copies.now k no_copy))) }
{
    copies.iter().all(|c| copy_fits(links, up, c))
}
