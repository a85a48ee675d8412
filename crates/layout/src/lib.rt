// A network and a bench as plain arrays of numbers, which a C caller can lend: specs/Layout.antt
// draws them. Each part of an array is read and laid by one loop, and every laid array is written
// wholly, so what is laid reads back as the value that it was.
#![tactic(auto)]

ghost use Rattle.std.specs.Prelude.{◌≡◌};
ghost use Rattle.layout.specs.Layout.{HoldsBench, HoldsNetwork, LaidBench, LaidNetwork, bench_fits, bench_in, network_fits, network_in};

mod description;
mod heads;
mod links;
mod puts;

use bench::Bench;
use network::Network;

// The lengths of the arrays.
pub const NETWORK_BYTES: usize = 355;

pub const NETWORK_SALTS: usize = 16;

pub const NETWORK_ADDRESSES: usize = 32;

pub const BENCH_BYTES: usize = 12_384;

pub const BENCH_MASKS: usize = 32;

pub const BENCH_WORDS: usize = 32;

pub const BENCH_WIDES: usize = 2_561;

// Where the wides have the number of copies in flight.
const FLYING_AT: usize = 2560;

// Whether three arrays of these lengths can hold a network.
pub fn network_fits(bytes: usize, salts: usize, addresses: usize) -> bool
    ensures { result ≡ network_fits bytes salts addresses }
{
    bytes == NETWORK_BYTES && salts == NETWORK_SALTS && addresses == NETWORK_ADDRESSES
}

// Whether four arrays of these lengths can hold a bench.
pub fn bench_fits(bytes: usize, masks: usize, words: usize, wides: usize) -> bool
    ensures { result ≡ bench_fits bytes masks words wides }
{
    bytes == BENCH_BYTES && masks == BENCH_MASKS && words == BENCH_WORDS && wides == BENCH_WIDES
}

// The network that three arrays hold.
pub fn network_of(bytes: &[u8], salts: &[u32], addresses: &[u64]) -> Network
    requires { HoldsNetwork bytes.now salts.now addresses.now }
    ensures { result ≡ network_in bytes.now salts.now addresses.now }
{
    Network {
        switches: description::switches_of(bytes, salts),
        hosts: description::hosts_of(bytes, addresses),
        links: description::links_of(bytes),
        nswitches: bytes[0],
        nhosts: bytes[1],
        nlinks: bytes[2],
    }
}

// Lays a network down in three arrays.
pub fn lay_network(n: &Network, bytes: &mut [u8], salts: &mut [u32], addresses: &mut [u64])
    requires { HoldsNetwork bytes.old salts.old addresses.old }
    ensures { LaidNetwork n.now bytes.new salts.new addresses.new }
{
    puts::put_row(bytes, 0, &[n.nswitches, n.nhosts, n.nlinks]);
    description::lay_switches(&n.switches, bytes, salts);
    description::lay_hosts(&n.hosts, bytes, addresses);
    description::lay_links(&n.links, bytes);
}

// The bench of a network that four arrays hold.
pub fn bench_of(n: Network, bytes: &[u8], masks: &[u16], words: &[u32], wides: &[u64]) -> Bench
    requires { HoldsBench bytes.now masks.now words.now wides.now }
    ensures { result ≡ bench_in n bytes.now masks.now words.now wides.now }
{
    Bench {
        network: n,
        up: links::states_of(bytes),
        seats: heads::seats_of(bytes, masks, words, wides),
        copies: links::copies_of(wides),
        flying: wides[FLYING_AT] as usize,
    }
}

// Lays a bench down in four arrays; its network has arrays of its own.
pub fn lay_bench(
    bench: &Bench,
    bytes: &mut [u8],
    masks: &mut [u16],
    words: &mut [u32],
    wides: &mut [u64],
)
    requires { HoldsBench bytes.old masks.old words.old wides.old }
    ensures { LaidBench bench.now bytes.new masks.new words.new wides.new }
{
    links::lay_states(&bench.up, bytes);
    heads::lay_seats(&bench.seats, bytes, masks, words, wides);
    links::lay_copies(&bench.copies, wides);
    wides[FLYING_AT] = bench.flying as u64;
}
