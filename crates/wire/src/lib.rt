// Numbers on the wire: high byte first, at every width, and which of them are source addresses. Addresses, nonces, salts, lengths and
// places are all written and read by two definitions, `bytes_of` and `number`, which undo each
// other; a lent buffer is changed only by putting bytes from a place on.
//
// Both functions take every place: what isn't there isn't read, and what doesn't fit isn't put.
// The reader is one loop over the width, so that its law is one; the compiler unrolls it where a
// caller names the width.
#![tactic(auto)]

ghost use Rattle.std.specs.Prelude.{◌≡◌, ◌<◌, ◌^◌, min, length};
ghost use Rattle.wire.specs.Wire.{number, part, put_in};
ghost use Rattle.wire.specs.Address.{is_source};

// The number that `width` bytes from a place on write; a u64 has room for eight.
pub fn number_at(bytes: &[u8], at: usize, width: usize) -> u64
    ensures value { result ≡ number (part at (min width 8) bytes.now) }
    ensures bound { result < 256 ^ min width 8 }
{
    let rest = &bytes[at.min(bytes.len())..];
    let mut n: u64 = 0;
    for b in &rest[..width.min(8).min(rest.len())] {
        n = n * 256 + u64::from(*b);
    }
    n
}

// Puts bytes into a buffer from a place on, if they fit; what stands before and behind them stays.
// Byte by byte: `copy_from_slice` would have an archive for C ask its linker for `memmove`.
pub fn put_at(buffer: &mut [u8], at: usize, bytes: &[u8])
    ensures { buffer.new ≡ put_in buffer.old at bytes.now }
{
    if at <= buffer.len() && bytes.len() <= buffer.len() - at {
        for (i, byte) in bytes.iter().enumerate() {
            buffer[at + i] = *byte;
        }
    }
}

// The least number that six bytes don't write.
pub const ADDRESS_BOUND: u64 = 0x1_0000_0000_0000;

// Where an address has its group bit, the lowest of its first byte.
const GROUP_PLACE: u32 = 40;

// Whether an address can be a source: six bytes, neither zero nor group.
#[tactic(auto, unfolding(crate::specs::Address::is_source))]
pub fn is_source(address: u64) -> bool
    ensures { result ≡ is_source address }
{
    address != 0 && address < ADDRESS_BOUND && (address >> GROUP_PLACE) % 2 == 0
}
