// A network description, read and written. A network is lent as three arrays, which crate `layout` draws.
ghost use Rattle.std.specs.Prelude.{length};
ghost use Rattle.layout.specs.Layout.{network_fits, network_in};
ghost use Rattle.engine_bench.specs.Networks.{ReadsLent, WritesLent, read_refusal, write_refusal};

use layout::{lay_network, network_fits, network_of};
use network::{read, write};
use refusal::Refusal;

// Reads the description that the input starts with.
#[unsafe(no_mangle)]
pub extern "C" fn sc_read(
    input: &[u8],
    bytes: &mut [u8],
    salts: &mut [u32],
    addresses: &mut [u64],
    end: &mut usize,
) -> u8
    ensures { ReadsLent (read_refusal (network_fits (length bytes.old) (length salts.old) (length addresses.old)) input.now) input.now bytes.old salts.old addresses.old end.old result bytes.new salts.new addresses.new end.new }
{
    if !network_fits(bytes.len(), salts.len(), addresses.len()) {
        return Refusal::BadRecord.number();
    }
    match read(input) {
        Err(r) => r.number(),
        Ok(d) => {
            lay_network(&d.network, bytes, salts, addresses);
            *end = d.end;
            0
        }
    }
}

// Writes a network's description at the output's start.
#[unsafe(no_mangle)]
pub extern "C" fn sc_write(
    bytes: &[u8],
    salts: &[u32],
    addresses: &[u64],
    out: &mut [u8],
    long: &mut usize,
) -> u8
    ensures { WritesLent (write_refusal (network_fits (length bytes.now) (length salts.now) (length addresses.now)) (network_in bytes.now salts.now addresses.now) (length out.old)) (network_in bytes.now salts.now addresses.now) out.old long.old result out.new long.new }
{
    if !network_fits(bytes.len(), salts.len(), addresses.len()) {
        return Refusal::BadRecord.number();
    }
    match write(&network_of(bytes, salts, addresses), out) {
        Err(r) => r.number(),
        Ok(n) => {
            *long = n;
            0
        }
    }
}
