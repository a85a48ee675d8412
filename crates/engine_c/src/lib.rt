// The door for a head as a static library: each call of crate `engine` under its C name, on the same arguments and with the same clauses.
#![tactic(auto)]

ghost use Rattle.std.specs.Prelude.{[], ◌∷◌, length};
ghost use Rattle.table.specs.Table.{table_of};
ghost use Rattle.engine.specs.Frames.{StripsLent, TagsLent, header_of4};
ghost use Rattle.engine.specs.Head.{FreshensLent, LooksUp, StepsLent, fresh_refusal, step_refusal, switch_in};

// The frame with a header, for a cable between switches.
#[unsafe(no_mangle)]
pub extern "C" fn sc_tag(
    frame: &[u8],
    l: bool,
    f: bool,
    hc: u8,
    nonce: u32,
    out: &mut [u8],
    length: &mut usize,
) -> u8
    ensures { TagsLent frame.now (header_of4 l f hc nonce) out.old (length.old ∷ []) result out.new (length.new ∷ []) }
{
    engine::frames::sc_tag(frame, l, f, hc, nonce, out, length)
}

// The host frame and the header of a tagged frame.
#[unsafe(no_mangle)]
pub extern "C" fn sc_strip(
    frame: &[u8],
    out: &mut [u8],
    length: &mut usize,
    l: &mut u8,
    f: &mut u8,
    hc: &mut u8,
    nonce: &mut u32,
) -> u8
    ensures { StripsLent frame.now out.old (length.old ∷ l.old ∷ f.old ∷ hc.old ∷ nonce.old ∷ []) result out.new (length.new ∷ l.new ∷ f.new ∷ hc.new ∷ nonce.new ∷ []) }
{
    engine::frames::sc_strip(frame, out, length, l, f, hc, nonce)
}

// One step of a switch: a frame on a port.
#[unsafe(no_mangle)]
pub extern "C" fn sc_step(
    ports: u8,
    live: u16,
    host: u16,
    limit: u8,
    salt: u32,
    nonce: &mut u32,
    addresses: &mut [u64],
    via: &mut [u8],
    hops: &mut [u8],
    filter: &mut [u8],
    port: u8,
    frame: &[u8],
    out: &mut [u8],
    report: &mut [u64],
) -> u8
    ensures { StepsLent (step_refusal (switch_in ports live host limit salt nonce.old addresses.old via.old hops.old) filter.old port frame.now (length out.old) (length report.old)) (switch_in ports live host limit salt nonce.old addresses.old via.old hops.old) filter.old port frame.now out.old report.old result (switch_in ports live host limit salt nonce.new addresses.new via.new hops.new) filter.new out.new report.new }
{
    engine::heads::sc_step(
        ports, live, host, limit, salt, nonce, addresses, via, hops, filter, port, frame, out,
        report,
    )
}

// Makes a switch that has met no frame: table and filter empty, next nonce 0.
#[unsafe(no_mangle)]
pub extern "C" fn sc_switch_fresh(
    ports: u8,
    live: u16,
    host: u16,
    limit: u8,
    salt: u32,
    nonce: &mut u32,
    addresses: &mut [u64],
    via: &mut [u8],
    hops: &mut [u8],
    filter: &mut [u8],
) -> u8
    ensures { FreshensLent (fresh_refusal (switch_in ports live host limit salt nonce.old addresses.old via.old hops.old) filter.old) (switch_in ports live host limit salt nonce.old addresses.old via.old hops.old) filter.old result (switch_in ports live host limit salt nonce.new addresses.new via.new hops.new) filter.new }
{
    engine::heads::sc_switch_fresh(
        ports, live, host, limit, salt, nonce, addresses, via, hops, filter,
    )
}

// What a table has of an address.
#[unsafe(no_mangle)]
pub extern "C" fn sc_lookup(
    addresses: &[u64],
    via: &[u8],
    hops: &[u8],
    address: u64,
    found: &mut u8,
    port: &mut u8,
    hc: &mut u8,
) -> u8
    ensures { LooksUp (table_of addresses.now via.now hops.now) address (found.old ∷ port.old ∷ hc.old ∷ []) result (found.new ∷ port.new ∷ hc.new ∷ []) }
{
    engine::heads::sc_lookup(addresses, via, hops, address, found, port, hc)
}
