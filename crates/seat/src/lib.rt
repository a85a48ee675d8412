// A head on the bench: its switch, and a filter of 64 cells. A frame has no payload here, so rule 1
// is said of addresses and a header.
#![tactic(auto)]

ghost use Rattle.std.specs.Prelude.{◌≡◌, ◌<◌, OnOk};
ghost use Rattle.refusal.specs.Refusal.{first};
ghost use Rattle.refusal.specs.Number.{refused_as};
ghost use Rattle.table.specs.Table.{Sized};
ghost use Rattle.head.specs.Switch.{switch_causes};
ghost use Rattle.seat.specs.Seat.{arrival_of, fresh_seat, from_link, host_header, seat_of, seated_as, step_of, with_setup};

use frame::Header;
use head::Switch;
use refusal::Refusal;
use rules::{Arrival, Report, Setup, nonce_after, rules};
use table::Table;

#[derive(Clone, Copy, PartialEq, Eq)]
pub struct Seat {
    pub switch: Switch,
    pub cells: [u8; Seat::CELLS],
}

impl Seat {
    // The bytes of 64 cells.
    pub const CELLS: usize = 640;

    // Table and filter empty, nonce 0.
    #[tactic(auto, unfolding(crate::specs::Seat::fresh_seat))]
    pub fn fresh(setup: Setup) -> Self
        ensures { result ≡ fresh_seat setup }
    {
        Seat {
            switch: Switch {
                setup,
                nonce: 0,
                table: Table::empty(),
            },
            cells: [0; Seat::CELLS],
        }
    }

    // Refusal 1 of the switch and its filter.
    pub fn check(&self) -> Result<(), Refusal>
        ensures refused { refused_as result ≡ first (switch_causes self.now.switch self.now.cells) }
        ensures sized { OnOk result (Sized self.now.switch.table) }
    {
        self.switch.check(&self.cells)
    }

    // The same nonce, table and filter under another setup: links change which ports are live.
    pub fn set_up(&mut self, setup: Setup)
        ensures { self.new ≡ with_setup setup self.old }
    {
        self.switch.setup = setup;
    }

    // Rule 1 on a host port.
    pub fn from_host(&self, port: u8, source: u64, destination: u64) -> Arrival
        ensures { result ≡ arrival_of port source destination (host_header self.now.switch.nonce self.now.switch.table source) }
    {
        let switch = &self.switch;
        from_host(switch.nonce, &switch.table, port, source, destination)
    }

    // The rules on what arrives.
    pub fn step(&mut self, a: Arrival) -> Report
        requires { a.port < 16 }
        ensures { seated_as self.new result ≡ step_of self.old a }
    {
        step_on(&mut self.switch, &mut self.cells, a)
    }
}

// Rule 1 on a host port: F is set exactly if the source has no entry.
pub fn from_host(nonce: u32, table: &Table, port: u8, source: u64, destination: u64) -> Arrival
    ensures { result ≡ arrival_of port source destination (host_header nonce table.now source) }
{
    let header = Header {
        l: true,
        f: table.lookup(source).is_none(),
        hc: 1,
        nonce,
    };
    Arrival {
        port,
        source,
        destination,
        header,
    }
}

// Rule 1 on a switch port: one hop more, which a hop count of six bits has room for.
#[tactic(auto, unfolding(crate::specs::Seat::from_link))]
pub fn from_link(port: u8, source: u64, destination: u64, h: Header) -> Arrival
    requires { h.hc < 64 }
    ensures { result ≡ from_link port source destination h }
{
    let header = Header {
        l: h.l,
        f: h.f,
        hc: h.hc + 1,
        nonce: h.nonce,
    };
    Arrival {
        port,
        source,
        destination,
        header,
    }
}

// The rules on what arrives at a switch, its filter of any length; the nonce advances if that is on a
// host port.
#[tactic(auto, unfolding(crate::specs::Seat::step_of))]
pub fn step_on(switch: &mut Switch, cells: &mut [u8], a: Arrival) -> Report
    requires { a.port < 16 }
    ensures { seated_as (seat_of switch.new cells.new) result ≡ step_of (seat_of switch.old cells.old) a }
{
    let setup = switch.setup;
    let report = rules(setup, &mut switch.table, cells, a);
    switch.nonce = nonce_after(setup, switch.nonce, a.port);
    report
}
