// The heads of a bench. An array holds their numbers part by part, so each part has a turn of its
// own over all heads.
ghost use mathlib.Core.List.{flat_map, map};
ghost use Rattle.std.specs.Prelude.{◌≡◌, ◌<◌, length};
ghost use Rattle.wire.specs.Wire.{put};
ghost use Rattle.network.specs.Network.{most_switches};
ghost use Rattle.table.specs.Table.{slots};
ghost use Rattle.seat.specs.Seat.{cell_bytes};
ghost use Rattle.layout.specs.Layout.{Evenly, HoldsBench, LaidSeats, cells_at, host_masks_at, limits_at, listed, nonces_at, ports_at, seat_in, setup_in, slot_hops_at, slot_ports_at};

use crate::puts::{put_row, row_at};
use head::Switch;
use network::Network;
use rules::Setup;
use seat::Seat;
use std::array;
use table::Table;

// Where the parts begin in a bench's bytes.
const PORTS_AT: usize = 64;

const LIMITS_AT: usize = 80;

const SLOT_PORTS_AT: usize = 96;

const SLOT_HOPS_AT: usize = 1120;

const CELLS_AT: usize = 2144;

// In its masks and in its words.
const HOST_MASKS_AT: usize = 16;

const NONCES_AT: usize = 16;

#[tactic(auto, unfolding(crate::specs::Layout::setup_in))]
fn setup_of(bytes: &[u8], masks: &[u16], words: &[u32], k: usize) -> Setup
    requires { (length bytes.now ≡ 12384) × (length masks.now ≡ 32) × (length words.now ≡ 32) × (k < most_switches) }
    ensures { result ≡ setup_in bytes.now masks.now words.now k }
{
    Setup {
        ports: bytes[PORTS_AT + k],
        live: masks[k],
        host: masks[HOST_MASKS_AT + k],
        limit: bytes[LIMITS_AT + k],
        salt: words[k],
    }
}

fn seat_of(bytes: &[u8], masks: &[u16], words: &[u32], wides: &[u64], k: usize) -> Seat
    requires { HoldsBench bytes.now masks.now words.now wides.now × (k < most_switches) }
    ensures { result ≡ seat_in bytes.now masks.now words.now wides.now k }
{
    let table = Table {
        addresses: row_at(wides, Table::SLOTS * k, 0),
        ports: row_at(bytes, SLOT_PORTS_AT + Table::SLOTS * k, 0),
        hops: row_at(bytes, SLOT_HOPS_AT + Table::SLOTS * k, 0),
    };
    Seat {
        switch: Switch {
            setup: setup_of(bytes, masks, words, k),
            nonce: words[NONCES_AT + k],
            table,
        },
        cells: row_at(bytes, CELLS_AT + Seat::CELLS * k, 0),
    }
}

pub(crate) fn seats_of(
    bytes: &[u8],
    masks: &[u16],
    words: &[u32],
    wides: &[u64],
) -> [Seat; Network::SWITCHES]
    requires { HoldsBench bytes.now masks.now words.now wides.now }
    ensures { result ≡ listed most_switches (seat_in bytes.now masks.now words.now wides.now) }
{
    array::from_fn(|k| seat_of(bytes, masks, words, wides, k))
}

// Ports, live masks and salts.
fn lay_ports(
    seats: &[Seat; Network::SWITCHES],
    bytes: &mut [u8],
    masks: &mut [u16],
    words: &mut [u32],
)
    requires { (length bytes.old ≡ 12384) × (length masks.old ≡ 32) × (length words.old ≡ 32) }
    ensures bytes { bytes.new ≡ put bytes.old ports_at (map (λ s. s.switch.setup.ports) seats.now) }
    ensures masks { masks.new ≡ put masks.old 0 (map (λ s. s.switch.setup.live) seats.now) }
    ensures words { words.new ≡ put words.old 0 (map (λ s. s.switch.setup.salt) seats.now) }
    ensures long { length seats.now ≡ most_switches }
{
    for (k, seat) in seats.iter().enumerate() {
        let setup = seat.switch.setup;
        bytes[PORTS_AT + k] = setup.ports;
        masks[k] = setup.live;
        words[k] = setup.salt;
    }
}

// Limits, host masks and next nonces.
fn lay_limits(
    seats: &[Seat; Network::SWITCHES],
    bytes: &mut [u8],
    masks: &mut [u16],
    words: &mut [u32],
)
    requires { (length bytes.old ≡ 12384) × (length masks.old ≡ 32) × (length words.old ≡ 32) }
    ensures bytes { bytes.new ≡ put bytes.old limits_at (map (λ s. s.switch.setup.limit) seats.now) }
    ensures masks { masks.new ≡ put masks.old host_masks_at (map (λ s. s.switch.setup.host) seats.now) }
    ensures words { words.new ≡ put words.old nonces_at (map (λ s. s.switch.nonce) seats.now) }
{
    for (k, seat) in seats.iter().enumerate() {
        let switch = seat.switch;
        bytes[LIMITS_AT + k] = switch.setup.limit;
        masks[HOST_MASKS_AT + k] = switch.setup.host;
        words[NONCES_AT + k] = switch.nonce;
    }
}

// The slots' ports and addresses.
fn lay_slots(seats: &[Seat; Network::SWITCHES], bytes: &mut [u8], wides: &mut [u64])
    requires { (length bytes.old ≡ 12384) × (length wides.old ≡ 2561) }
    ensures bytes { bytes.new ≡ put bytes.old slot_ports_at (flat_map (λ s. s.switch.table.ports) seats.now) }
    ensures wides { wides.new ≡ put wides.old 0 (flat_map (λ s. s.switch.table.addresses) seats.now) }
    ensures ports { Evenly (λ s. s.switch.table.ports) slots seats.now }
    ensures addresses { Evenly (λ s. s.switch.table.addresses) slots seats.now }
{
    for (k, seat) in seats.iter().enumerate() {
        let table = &seat.switch.table;
        put_row(bytes, SLOT_PORTS_AT + Table::SLOTS * k, &table.ports);
        put_row(wides, Table::SLOTS * k, &table.addresses);
    }
}

// The slots' hop counts.
fn lay_hops(seats: &[Seat; Network::SWITCHES], bytes: &mut [u8])
    requires { length bytes.old ≡ 12384 }
    ensures bytes { bytes.new ≡ put bytes.old slot_hops_at (flat_map (λ s. s.switch.table.hops) seats.now) }
    ensures hops { Evenly (λ s. s.switch.table.hops) slots seats.now }
{
    for (k, seat) in seats.iter().enumerate() {
        put_row(
            bytes,
            SLOT_HOPS_AT + Table::SLOTS * k,
            &seat.switch.table.hops,
        );
    }
}

fn lay_cells(seats: &[Seat; Network::SWITCHES], bytes: &mut [u8])
    requires { length bytes.old ≡ 12384 }
    ensures bytes { bytes.new ≡ put bytes.old cells_at (flat_map (λ s. s.cells) seats.now) }
    ensures cells { Evenly (λ s. s.cells) cell_bytes seats.now }
{
    for (k, seat) in seats.iter().enumerate() {
        put_row(bytes, CELLS_AT + Seat::CELLS * k, &seat.cells);
    }
}

// All of them. Behind the addresses the wides stay as they are, and so do the states in front of the bytes.
pub(crate) fn lay_seats(
    seats: &[Seat; Network::SWITCHES],
    bytes: &mut [u8],
    masks: &mut [u16],
    words: &mut [u32],
    wides: &mut [u64],
)
    requires { HoldsBench bytes.old masks.old words.old wides.old }
    ensures { LaidSeats seats.now bytes.old wides.old bytes.new masks.new words.new wides.new }
{
    lay_ports(seats, bytes, masks, words);
    lay_limits(seats, bytes, masks, words);
    lay_slots(seats, bytes, wides);
    lay_hops(seats, bytes);
    lay_cells(seats, bytes);
}
