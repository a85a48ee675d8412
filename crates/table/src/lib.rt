// The learning table of a head's switch: 64 slots, each empty or an address with the port and the hop count it was learned with.
//
// One search serves everything, the first place of an address among the slots: it finds an entry, it finds the lowest empty slot (the first
// place of zero), and no address stands twice exactly where each is in its own first place. The work is done on the three arrays lent as
// slices, so that who keeps them elsewhere copies nothing; a method of `Table` lends its own.
#![tactic(auto)]

ghost use Rattle.std.specs.Prelude.{false, ◌≡◌, ◌==◌, ◌<◌, get_or, length};
ghost use Rattle.table.specs.Table.{Sized, NoneOf, Passed, empty_table, erase_of, learn_of, learned_of, lookup_of, mark_of, marks, may_hold, place_in, put, slot_fits, slot_for, slot_of, slots, table_of, well_formed};

// Slot i is place i of the three arrays, and an empty slot is zero in all three.
#[derive(Clone, Copy, PartialEq, Eq)]
pub struct Table {
    pub addresses: [u64; Table::SLOTS],
    pub ports: [u8; Table::SLOTS],
    pub hops: [u8; Table::SLOTS],
}

#[derive(Clone, Copy, PartialEq, Eq)]
pub struct Entry {
    pub port: u8,
    pub hops: u8,
}

impl Table {
    pub const SLOTS: usize = 64;

    pub const LEAST_HOPS: u8 = 1;

    pub const MOST_HOPS: u8 = 62;

    // Every slot is all zeros.
    #[tactic(auto, unfolding(crate::specs::Table::empty_table))]
    pub fn empty() -> Self
        ensures { result ≡ empty_table }
    {
        Table {
            addresses: [0; Table::SLOTS],
            ports: [0; Table::SLOTS],
            hops: [0; Table::SLOTS],
        }
    }

    // What was learned of an address.
    pub fn lookup(&self, address: u64) -> Option<Entry>
        ensures { result ≡ lookup_of self.now address }
    {
        lookup_in(&self.addresses, &self.ports, &self.hops, address)
    }

    // An address stands behind a port, hc hops away. True where the table was full, so that nothing was learned.
    pub fn learn(&mut self, address: u64, port: u8, hc: u8) -> bool
        ensures { learned_of result self.new ≡ learn_of self.old address port hc }
    {
        learn_in(
            &mut self.addresses,
            &mut self.ports,
            &mut self.hops,
            address,
            port,
            hc,
        )
    }

    // The address is forgotten, and its slot used again.
    pub fn erase(&mut self, address: u64)
        ensures { self.new ≡ erase_of self.old address }
    {
        erase_in(
            &mut self.addresses,
            &mut self.ports,
            &mut self.hops,
            address,
        );
    }

    // Whether it can be the table of a switch of n ports.
    pub fn is_well_formed(&self, n: u8) -> bool
        ensures test { result ≡ well_formed n self.now }
        ensures sized { Sized self.now }
    {
        is_well_formed_in(&self.addresses, &self.ports, &self.hops, n)
    }
}

// Whether one of four slots holds an address.
fn is_one_of(address: u64, a: u64, b: u64, c: u64, d: u64) -> bool
    ensures { result ≡ false → NoneOf address a b c d }
{
    a == address || b == address || c == address || d == address
}

// Four slots at a time: from where on an address is to be searched for slot by slot. No slot before has it.
// By index: `chunks_exact` and `position` were measured slower.
#[tactic(auto, using(crate::proofs::Slots::none_passed, crate::proofs::Slots::slots_next))]
fn passed(addresses: &[u64], address: u64) -> usize
    ensures { Passed address addresses.now result }
{
    for four in 0..addresses.len() / 4 {
        let slot = 4 * four;
        let a = addresses[slot];
        let b = addresses[slot + 1];
        let c = addresses[slot + 2];
        let d = addresses[slot + 3];
        if is_one_of(address, a, b, c, d) {
            return slot;
        }
    }
    addresses.len() / 4 * 4
}

// The first place of an address. By index, since the search goes on from a place.
#[tactic(auto, unfolding(crate::specs::Table::place_in), using(crate::proofs::Slots::slot_here, crate::proofs::Slots::slot_next, crate::proofs::Slots::slot_end))]
pub fn slot_of(addresses: &[u64], address: u64) -> Option<usize>
    ensures { result ≡ place_in addresses.now (slot_of address addresses.now) }
{
    for slot in passed(addresses, address)..addresses.len() {
        if addresses[slot] == address {
            return Some(slot);
        }
    }
    None
}

// Where an address is learned: its own slot, else the lowest empty one.
#[tactic(auto, unfolding(crate::specs::Table::slot_for, crate::specs::Table::place_in))]
pub fn slot_for(addresses: &[u64], address: u64) -> Option<usize>
    ensures { result ≡ place_in addresses.now (slot_for address addresses.now) }
{
    let known = slot_of(addresses, address);
    if known.is_some() {
        return known;
    }
    slot_of(addresses, 0)
}

// What was learned of an address. Zero finds nothing, though every empty slot has it.
#[tactic(auto, unfolding(crate::specs::Table::lookup_of, crate::specs::Table::found_at, crate::specs::Table::place_in))]
pub fn lookup_in(addresses: &[u64], ports: &[u8], hops: &[u8], address: u64) -> Option<Entry>
    requires { Sized (table_of addresses.now ports.now hops.now) }
    ensures { result ≡ lookup_of (table_of addresses.now ports.now hops.now) address }
{
    if address == 0 {
        return None;
    }
    let own = slot_of(addresses, address)?;
    Some(Entry {
        port: ports[own],
        hops: hops[own],
    })
}

// Writes one slot.
#[tactic(auto, unfolding(crate::specs::Table::put))]
fn put_in(
    addresses: &mut [u64],
    ports: &mut [u8],
    hops: &mut [u8],
    slot: usize,
    address: u64,
    port: u8,
    hc: u8,
)
    requires { Sized (table_of addresses.old ports.old hops.old) × (slot < slots) }
    ensures written { table_of addresses.new ports.new hops.new ≡ put (table_of addresses.old ports.old hops.old) slot address port hc }
    ensures sized { Sized (table_of addresses.new ports.new hops.new) }
{
    addresses[slot] = address;
    ports[slot] = port;
    hops[slot] = hc;
}

// An address stands behind a port, hc hops away. True where the table was full, so that nothing was learned.
#[tactic(auto, unfolding(crate::specs::Table::learn_of, crate::specs::Table::learn_at, crate::specs::Table::place_in))]
pub fn learn_in(
    addresses: &mut [u64],
    ports: &mut [u8],
    hops: &mut [u8],
    address: u64,
    port: u8,
    hc: u8,
) -> bool
    requires { Sized (table_of addresses.old ports.old hops.old) }
    ensures learned { learned_of result (table_of addresses.new ports.new hops.new) ≡ learn_of (table_of addresses.old ports.old hops.old) address port hc }
    ensures sized { Sized (table_of addresses.new ports.new hops.new) }
{
    let Some(slot) = slot_for(addresses, address) else {
        return true;
    };
    put_in(addresses, ports, hops, slot, address, port, hc);
    false
}

// The address is forgotten: its slot is zeroed, so that its room is used again.
#[tactic(auto, unfolding(crate::specs::Table::erase_of, crate::specs::Table::erase_at, crate::specs::Table::place_in))]
pub fn erase_in(addresses: &mut [u64], ports: &mut [u8], hops: &mut [u8], address: u64)
    requires { Sized (table_of addresses.old ports.old hops.old) }
    ensures erased { table_of addresses.new ports.new hops.new ≡ erase_of (table_of addresses.old ports.old hops.old) address }
    ensures sized { Sized (table_of addresses.new ports.new hops.new) }
{
    if let Some(slot) = slot_of(addresses, address) {
        put_in(addresses, ports, hops, slot, 0, 0, 0);
    }
}

// Whether a slot may hold this on a switch of n ports.
#[tactic(auto, unfolding(crate::specs::Table::may_hold))]
fn may_hold(n: u8, address: u64, port: u8, hc: u8) -> bool
    ensures { result ≡ may_hold n address port hc }
{
    port < n && Table::LEAST_HOPS <= hc && hc <= Table::MOST_HOPS && wire::is_source(address)
}

// Enough marks that those of 64 addresses seldom meet.
const MARKS: usize = 1024;

// Which mark an address has.
#[tactic(auto, unfolding(crate::specs::Table::mark_of))]
fn mark_of(address: u64) -> usize
    ensures mark { result ≡ mark_of address }
    ensures within { result < marks }
{
    (address ^ (address >> 10) ^ (address >> 20)) as usize % MARKS
}

// Whether slot i is the first of an address. Cold: few ask it, and the search is kept out of the loop of all 64.
#[cold]
#[tactic(auto, unfolding(crate::specs::Table::place_in))]
fn is_first(addresses: &[u64], address: u64, i: usize) -> bool
    requires { i < length addresses.now }
    ensures { result ≡ (slot_of address addresses.now == i) }
{
    slot_of(addresses, address) == Some(i)
}

// Whether slot i is empty, or holds what it may in its address's first slot. A mark that is not set spares the search.
#[tactic(auto, unfolding(crate::specs::Table::slot_fits))]
fn slot_fits(addresses: &[u64], ports: &[u8], hops: &[u8], n: u8, i: usize, marked: bool) -> bool
    requires { Sized (table_of addresses.now ports.now hops.now) × (i < slots) × (marked ≡ false → slot_of (get_or addresses.now i 0) addresses.now ≡ i) }
    ensures { result ≡ slot_fits n (table_of addresses.now ports.now hops.now) i }
{
    let address = addresses[i];
    let port = ports[i];
    let hc = hops[i];
    if address == 0 {
        return port == 0 && hc == 0;
    }
    (!marked || is_first(addresses, address, i)) && may_hold(n, address, port, hc)
}

// Whether it can be the table of a switch of n ports. Each address sets its mark as its slot is passed, and only one that finds its mark
// set is searched for: few searches instead of 64. By index, since a slot is a place of three arrays.
pub fn is_well_formed_in(addresses: &[u64], ports: &[u8], hops: &[u8], n: u8) -> bool
    requires { Sized (table_of addresses.now ports.now hops.now) }
    ensures { result ≡ well_formed n (table_of addresses.now ports.now hops.now) }
{
    let mut seen = [false; MARKS];
    for i in 0..Table::SLOTS {
        let mark = mark_of(addresses[i]);
        if !slot_fits(addresses, ports, hops, n, i, seen[mark]) {
            return false;
        }
        seen[mark] = true;
    }
    true
}
