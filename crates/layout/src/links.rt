// What is on the links of a bench: their states, and the copies in flight.
ghost use mathlib.Core.List.{flat_map, map};
ghost use Rattle.std.specs.Prelude.{◌≡◌, ◌<◌, length};
ghost use Rattle.frame.specs.Header.{bit};
ghost use Rattle.wire.specs.Wire.{put};
ghost use Rattle.network.specs.Network.{most_links};
ghost use Rattle.flight.specs.Flight.{most, pack};
ghost use Rattle.layout.specs.Layout.{RangedCopies, copies_at, copy_in, listed, up_in};

use crate::puts::{put_row, row_at};
use flight::Copy;
use network::Network;
use std::array;

// Where the copies begin in a bench's wides.
const COPIES_AT: usize = 1024;

#[tactic(auto, unfolding(crate::specs::Layout::up_in))]
fn is_up(bytes: &[u8], i: usize) -> bool
    requires { (length bytes.now ≡ 12384) × (i < most_links) }
    ensures { result ≡ up_in bytes.now i }
{
    bytes[i] != 0
}

pub(crate) fn states_of(bytes: &[u8]) -> [bool; Network::LINKS]
    requires { length bytes.now ≡ 12384 }
    ensures { result ≡ listed most_links (up_in bytes.now) }
{
    array::from_fn(|i| is_up(bytes, i))
}

pub(crate) fn lay_states(up: &[bool; Network::LINKS], bytes: &mut [u8])
    requires { length bytes.old ≡ 12384 }
    ensures bytes { bytes.new ≡ put bytes.old 0 (map bit up.now) }
    ensures long { length up.now ≡ most_links }
{
    for (i, is_up) in up.iter().enumerate() {
        bytes[i] = *is_up as u8;
    }
}

#[tactic(auto, unfolding(crate::specs::Layout::copy_in))]
fn copy_at(wides: &[u64], i: usize) -> Copy
    requires { (length wides.now ≡ 2561) × (i < most) }
    ensures { result ≡ copy_in wides.now i }
{
    Copy::unpacked(row_at(wides, COPIES_AT + 3 * i, 0))
}

pub(crate) fn copies_of(wides: &[u64]) -> [Copy; Copy::MOST]
    requires { length wides.now ≡ 2561 }
    ensures { result ≡ listed most (copy_in wides.now) }
{
    array::from_fn(|i| copy_at(wides, i))
}

pub(crate) fn lay_copies(copies: &[Copy; Copy::MOST], wides: &mut [u64])
    requires { length wides.old ≡ 2561 }
    ensures wides { wides.new ≡ put wides.old copies_at (flat_map pack copies.now) }
    ensures ranged { RangedCopies copies.now }
{
    for (i, c) in copies.iter().enumerate() {
        put_row(wides, COPIES_AT + 3 * i, &c.packed());
    }
}
