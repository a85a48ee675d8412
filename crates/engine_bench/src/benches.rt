// The bench: a network's three arrays, which stay as they are, and the bench's four, drawn in crate `layout`.
ghost use Rattle.std.specs.Prelude.{Ok, ◌≡◌, length};
ghost use Rattle.network.specs.Checks.{network_fault};
ghost use Rattle.event.specs.Event.{event_in};
ghost use Rattle.counters.specs.Event.{event_refusal};
ghost use Rattle.layout.specs.Layout.{HoldsBench, bench_fits, bench_in, network_fits, network_in};
ghost use Rattle.engine_bench.specs.Bench.{FreshensBench, HappensLent, counter_size, counter_values, counters_in, event_fits, event_numbers, event_size, fresh_refusal, happen_refusal};

use bench::Bench;
use counters::Counters;
use event::{Event, read_event};
use layout::{bench_fits, bench_of, lay_bench, network_fits, network_of};
use network::Network;
use refusal::Refusal;
use rules::{letter_of, sent_by};
use turn::{Done, Report};

const COUNTERS: usize = 7;

const REPORT: usize = 15;

// A bench of a network on which nothing has happened.
#[unsafe(no_mangle)]
pub extern "C" fn sc_fresh(
    network: &[u8],
    salts: &[u32],
    addresses: &[u64],
    bytes: &mut [u8],
    masks: &mut [u16],
    words: &mut [u32],
    wides: &mut [u64],
) -> u8
    ensures { FreshensBench (fresh_refusal (network_fits (length network.now) (length salts.now) (length addresses.now)) (bench_fits (length bytes.old) (length masks.old) (length words.old) (length wides.old)) (network_in network.now salts.now addresses.now)) (network_in network.now salts.now addresses.now) bytes.old masks.old words.old wides.old result bytes.new masks.new words.new wides.new }
{
    if !network_fits(network.len(), salts.len(), addresses.len()) {
        return Refusal::BadRecord.number();
    }
    if !bench_fits(bytes.len(), masks.len(), words.len(), wides.len()) {
        return Refusal::OutOfShape.number();
    }
    match Bench::fresh(&network_of(network, salts, addresses)) {
        Err(r) => r.number(),
        Ok(bench) => {
            lay_bench(&bench, bytes, masks, words, wides);
            0
        }
    }
}

// The counters that seven numbers are.
fn counters_of(c: &[u64]) -> Counters
    requires { length c.now ≡ counter_size }
    ensures { result ≡ counters_in c.now }
{
    Counters {
        placed: c[0],
        taken: c[1],
        cut: c[2],
        lost: c[3],
        delivered: c[4],
        overwritten: c[5],
        accepted: c[6],
    }
}

// The numbers of counters.
fn counter_numbers(c: Counters) -> [u64; COUNTERS]
    ensures { result ≡ counter_values c }
{
    [
        c.placed,
        c.taken,
        c.cut,
        c.lost,
        c.delivered,
        c.overwritten,
        c.accepted,
    ]
}

// The numbers of a step's report, behind how many copies were cut.
fn step_numbers(r: Report) -> [u64; REPORT]
    ensures { result ≡ event_numbers (Ok (Done.Stepped r)) }
{
    let v = r.verdict;
    let s = sent_by(v);
    let h = s.header;
    [
        0,
        r.switch as u64,
        r.port as u64,
        r.source,
        r.destination,
        r.placed as u64,
        r.lost as u64,
        r.received as u64,
        r.overwrote as u64,
        letter_of(v) as u64,
        s.mask as u64,
        h.l as u64,
        h.f as u64,
        h.hc as u64,
        h.nonce as u64,
    ]
}

// The numbers of what an event did.
fn event_numbers(done: Done) -> [u64; REPORT]
    ensures { result ≡ event_numbers (Ok done) }
{
    match done {
        Done::Stepped(r) => step_numbers(r),
        Done::Linked(cut) => [cut as u64, 0, 0, 0, 0, 0, 0, 0, 0, 0x4B, 0, 0, 0, 0, 0],
    }
}

// An event on a bench in arrays of the right lengths.
fn happen(
    n: Network,
    e: Event,
    bytes: &mut [u8],
    masks: &mut [u16],
    words: &mut [u32],
    wides: &mut [u64],
    counters: &mut [u64],
    report: &mut [u64],
) -> u8
    requires { HoldsBench bytes.old masks.old words.old wides.old × (length counters.old ≡ counter_size) × (length report.old ≡ event_size) }
    ensures { HappensLent (event_refusal (bench_in n bytes.old masks.old words.old wides.old) (counters_in counters.old) e) (bench_in n bytes.old masks.old words.old wides.old) e (counters_in counters.old) bytes.old masks.old words.old wides.old counters.old report.old result bytes.new masks.new words.new wides.new counters.new report.new }
{
    let mut bench = bench_of(n, bytes, masks, words, wides);
    let mut after = counters_of(counters);
    match counters::event(&mut bench, e, &mut after) {
        Err(r) => r.number(),
        Ok(done) => {
            lay_bench(&bench, bytes, masks, words, wides);
            counters.copy_from_slice(&counter_numbers(after));
            report.copy_from_slice(&event_numbers(done));
            0
        }
    }
}

// Whether bench, counters and report have their lengths.
#[tactic(auto, unfolding(crate::specs::Bench::event_fits))]
fn event_fits(
    bytes: usize,
    masks: usize,
    words: usize,
    wides: usize,
    counters: usize,
    report: usize,
) -> bool
    ensures { result ≡ event_fits bytes masks words wides counters report }
{
    counters == COUNTERS && report == REPORT && bench_fits(bytes, masks, words, wides)
}

// What happens on a bench: the event whose record the input starts with.
#[unsafe(no_mangle)]
pub extern "C" fn sc_event(
    network: &[u8],
    salts: &[u32],
    addresses: &[u64],
    bytes: &mut [u8],
    masks: &mut [u16],
    words: &mut [u32],
    wides: &mut [u64],
    counters: &mut [u64],
    input: &[u8],
    report: &mut [u64],
) -> u8
    ensures { HappensLent (happen_refusal (network_fits (length network.now) (length salts.now) (length addresses.now)) (event_fits (length bytes.old) (length masks.old) (length words.old) (length wides.old) (length counters.old) (length report.old)) (bench_in (network_in network.now salts.now addresses.now) bytes.old masks.old words.old wides.old) (counters_in counters.old) input.now) (bench_in (network_in network.now salts.now addresses.now) bytes.old masks.old words.old wides.old) (event_in input.now) (counters_in counters.old) bytes.old masks.old words.old wides.old counters.old report.old result bytes.new masks.new words.new wides.new counters.new report.new }
{
    if !network_fits(network.len(), salts.len(), addresses.len()) {
        return Refusal::BadRecord.number();
    }
    if !event_fits(
        bytes.len(),
        masks.len(),
        words.len(),
        wides.len(),
        counters.len(),
        report.len(),
    ) {
        return Refusal::OutOfShape.number();
    }
    match read_event(input, 0) {
        Err(r) => r.number(),
        Ok(e) => {
            let n = network_of(network, salts, addresses);
            happen(n, e, bytes, masks, words, wides, counters, report)
        }
    }
}
