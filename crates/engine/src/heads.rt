// A head's switch, lent as its next nonce, its table's three arrays and its filter. The parameters
// are those of the C functions, which pass numbers and slices only.
ghost use Rattle.std.specs.Prelude.{[], ◌∷◌, ◌≡◌, length, true};
ghost use Rattle.refusal.specs.Number.{refused_as};
ghost use Rattle.table.specs.Table.{Sized, empty_table, table_of};
ghost use Rattle.rules.specs.Verdict.{report_values};
ghost use Rattle.engine.specs.Head.{FreshensLent, LooksUp, StepsLent, fresh_refusal, setup_refusal, sized, step_refusal, switch_in};

use head::Switch;
use head::inner::step_in;
use refusal::Refusal;
use rules::{Report, Setup, letter_of, sent_by};
use table::{Entry, Table, lookup_in};

const REPORT: usize = 8;

// Whether the table's arrays have their 64 elements each.
#[tactic(auto, unfolding(crate::specs::Head::sized))]
fn is_sized(addresses: &[u64], via: &[u8], hops: &[u8]) -> bool
    ensures test { result ≡ sized (table_of addresses.now via.now hops.now) }
    ensures sized { result ≡ true → Sized (table_of addresses.now via.now hops.now) }
{
    addresses.len() == Table::SLOTS && via.len() == Table::SLOTS && hops.len() == Table::SLOTS
}

// A report's numbers.
fn numbers_of(r: Report) -> [u64; REPORT]
    ensures { result ≡ report_values r }
{
    let v = r.verdict;
    let s = sent_by(v);
    let h = s.header;
    [
        r.full as u64,
        r.overwrote as u64,
        letter_of(v) as u64,
        s.mask as u64,
        h.l as u64,
        h.f as u64,
        h.hc as u64,
        h.nonce as u64,
    ]
}

// One step of a switch: a frame on a port.
#[tactic(auto, unfolding(crate::specs::Head::step_refusal, crate::specs::Head::fitting))]
pub fn sc_step(
    ports: u8,
    live: u16,
    host: u16,
    limit: u8,
    salt: u32,
    nonce: &mut u32,
    addresses: &mut [u64],
    via: &mut [u8],
    hops: &mut [u8],
    filter: &mut [u8],
    port: u8,
    frame: &[u8],
    out: &mut [u8],
    report: &mut [u64],
) -> u8
    ensures { StepsLent (step_refusal (switch_in ports live host limit salt nonce.old addresses.old via.old hops.old) filter.old port frame.now (length out.old) (length report.old)) (switch_in ports live host limit salt nonce.old addresses.old via.old hops.old) filter.old port frame.now out.old report.old result (switch_in ports live host limit salt nonce.new addresses.new via.new hops.new) filter.new out.new report.new }
{
    if !is_sized(addresses, via, hops) {
        return 1;
    }
    if report.len() != REPORT {
        return 1;
    }
    let setup = Setup {
        ports,
        live,
        host,
        limit,
        salt,
    };
    match step_in(setup, nonce, addresses, via, hops, filter, port, frame, out) {
        Err(r) => r.number(),
        Ok(r) => {
            report.copy_from_slice(&numbers_of(r));
            0
        }
    }
}

// The bytes of the longest filter.
const CELLS: usize = 2560;

// The refusal of a switch that has met no frame, with an empty filter of so many bytes.
fn check_fresh(setup: Setup, bytes: usize) -> Result<(), Refusal>
    ensures { refused_as result ≡ setup_refusal setup bytes }
{
    Refusal::IllFormed.when(CELLS < bytes)?;
    let switch = Switch {
        setup,
        nonce: 0,
        table: Table::empty(),
    };
    let cells = [0u8; CELLS];
    switch.check(&cells[..bytes])
}

// Empties a table.
#[tactic(auto, unfolding(table::specs::Table::empty_table))]
fn clear_table(addresses: &mut [u64], via: &mut [u8], hops: &mut [u8])
    requires { Sized (table_of addresses.old via.old hops.old) }
    ensures { table_of addresses.new via.new hops.new ≡ empty_table }
{
    addresses.fill(0);
    via.fill(0);
    hops.fill(0);
}

// Makes a switch that has met no frame: table and filter empty, next nonce 0.
#[tactic(auto, unfolding(crate::specs::Head::fresh_refusal))]
pub fn sc_switch_fresh(
    ports: u8,
    live: u16,
    host: u16,
    limit: u8,
    salt: u32,
    nonce: &mut u32,
    addresses: &mut [u64],
    via: &mut [u8],
    hops: &mut [u8],
    filter: &mut [u8],
) -> u8
    ensures { FreshensLent (fresh_refusal (switch_in ports live host limit salt nonce.old addresses.old via.old hops.old) filter.old) (switch_in ports live host limit salt nonce.old addresses.old via.old hops.old) filter.old result (switch_in ports live host limit salt nonce.new addresses.new via.new hops.new) filter.new }
{
    if !is_sized(addresses, via, hops) {
        return 1;
    }
    let setup = Setup {
        ports,
        live,
        host,
        limit,
        salt,
    };
    match check_fresh(setup, filter.len()) {
        Err(r) => r.number(),
        Ok(()) => {
            *nonce = 0;
            clear_table(addresses, via, hops);
            filter.fill(0);
            0
        }
    }
}

// What a table has of an address.
#[tactic(auto, unfolding(crate::specs::Head::lookup_refusal))]
pub fn sc_lookup(
    addresses: &[u64],
    via: &[u8],
    hops: &[u8],
    address: u64,
    found: &mut u8,
    port: &mut u8,
    hc: &mut u8,
) -> u8
    ensures { LooksUp (table_of addresses.now via.now hops.now) address (found.old ∷ port.old ∷ hc.old ∷ []) result (found.new ∷ port.new ∷ hc.new ∷ []) }
{
    if !is_sized(addresses, via, hops) {
        return 1;
    }
    let entry = lookup_in(addresses, via, hops, address);
    *found = entry.is_some() as u8;
    let e = entry.unwrap_or(Entry { port: 0, hops: 0 });
    *port = e.port;
    *hc = e.hops;
    0
}
