// The filter of a head's switch: cells in a lent buffer, each all zeros or the bytes of a triple.
//
// A triple's cell is a hash of its bytes, so that asking and recording look at one cell, and a new
// triple overwrites what stands there. Nothing of this knows how many cells there are or how long a
// key is: a cell is as wide as the key. Only the test whether a filter is well-formed, at the end,
// knows a triple's ten bytes. Every step asks it, so it compares numbers and not byte by byte.
#![tactic(auto)]

ghost use Rattle.std.specs.Prelude.{◌≡◌, ◌+◌, ◌*◌, ◌/◌, ◌%◌, ◌^◌, ◌<◌, ◌≤◌, ◌==◌, length, false, IfNone, IfSome};
ghost use Rattle.wire.specs.Wire.{part};
ghost use Rattle.wire.specs.Below.{all_below};
ghost use Rattle.filter.specs.Filter.{mixed, hash, cells, cell, same, empty, has_cell, Begins, holds, overwrites, recorded};
ghost use Rattle.filter.specs.Triple.{width, triple, source_in, is_cell, is_length, well_formed};

// A cell's bytes: six of the source, three of the nonce, one of L.
pub const CELL: usize = 10;

// What recording found in the key's cell: the key itself, or another one that gave way to it.
#[derive(Clone, Copy, PartialEq, Eq)]
pub struct Recorded {
    pub duplicate: bool,
    pub overwrote: bool,
}

// Rotates h left by 5 and takes one byte of the key in.
fn mix(h: u32, byte: u8) -> u32
    ensures { result ≡ mixed h byte }
{
    let rotated = (h << 5) | (h >> 27);
    (rotated ^ u32::from(byte)).wrapping_add(0x9E37_79B9)
}

// The hash of a key, folded over its bytes from the salt on.
pub fn hash_of(salt: u32, key: &[u8]) -> u32
    ensures { result ≡ hash salt key.now }
{
    key.iter().fold(salt, |h, byte| mix(h, *byte))
}

// Where the key's cell begins, in a filter that has one for it.
#[tactic(auto, using(crate::proofs::Places::no_cell))]
fn place_of(filter: &[u8], salt: u32, key: &[u8]) -> Option<usize>
    ensures none { IfNone result (has_cell filter.now key.now ≡ false) }
    ensures some { IfSome result (Begins filter.now salt key.now) }
{
    let count = filter.len().checked_div(key.len())?;
    let cell = (hash_of(salt, key) as usize).checked_rem(count)?;
    Some(cell * key.len())
}

// Whether the bytes from a place on are the key's.
#[tactic(auto, using(crate::proofs::Bytes::slice_same))]
fn same_at(filter: &[u8], at: usize, key: &[u8]) -> bool
    requires { at + length key.now ≤ length filter.now }
    ensures { result ≡ same (part at (length key.now) filter.now) key.now }
{
    &filter[at..at + key.len()] == key
}

// Whether so many bytes from a place on are zeros.
fn empty_at(filter: &[u8], at: usize, count: usize) -> bool
    requires { at + count ≤ length filter.now }
    ensures { result ≡ empty (part at count filter.now) }
{
    filter[at..at + count].iter().all(|byte| *byte == 0)
}

// Whether the key's cell holds exactly it.
#[tactic(auto, using(crate::proofs::Places::of_cell))]
pub fn duplicate(filter: &[u8], salt: u32, key: &[u8]) -> bool
    ensures { result ≡ holds filter.now salt key.now }
{
    match place_of(filter, salt, key) {
        Some(at) => same_at(filter, at, key),
        None => false,
    }
}

// Records a key in its cell. Rule 3 asks first whether it is a duplicate: one call, one hash.
#[tactic(auto, using(crate::proofs::Places::of_cell))]
pub fn record(filter: &mut [u8], salt: u32, key: &[u8]) -> Recorded
    ensures duplicate { result.duplicate ≡ holds filter.old salt key.now }
    ensures overwrote { result.overwrote ≡ overwrites filter.old salt key.now }
    ensures filter { filter.new ≡ recorded filter.old salt key.now }
{
    let Some(at) = place_of(filter, salt, key) else {
        return Recorded {
            duplicate: false,
            overwrote: false,
        };
    };
    if same_at(filter, at, key) {
        return Recorded {
            duplicate: true,
            overwrote: false,
        };
    }
    let free = empty_at(filter, at, key.len());
    wire::put_at(filter, at, key);
    Recorded {
        duplicate: false,
        overwrote: !free,
    }
}

// The key of a triple: source, nonce high byte first, L as 0 or 1.
pub fn triple_of(source: u64, nonce: u32, l: u8) -> [u8; CELL]
    ensures { result ≡ triple source nonce l }
{
    let [_, _, a, b, c, d, e, f] = source.to_be_bytes();
    let [_, x, y, z] = nonce.to_be_bytes();
    [a, b, c, d, e, f, x, y, z, l]
}

// Whether a cell's source is zero: four of its bytes at once, and only where those are zero the other two.
#[tactic(auto, using(crate::proofs::Cells::source_told))]
fn lacks_source(cell: &[u8; CELL]) -> bool
    ensures { result ≡ source_in cell.now == 0 }
{
    let [a, b, c, d, e, f, ..] = *cell;
    u32::from_be_bytes([a, b, c, d]) == 0 && u16::from_be_bytes([e, f]) == 0
}

// Whether a cell is all zeros or holds a triple. Every step asks it of every cell: what a cell without a source holds besides is read at
// once, and group bit and L of any other are asked in one test.
#[tactic(auto, using(crate::proofs::Cells::cell_without_source, crate::proofs::Cells::cell_with_source))]
fn cell_fits(cell: &[u8; CELL]) -> bool
    ensures { result ≡ is_cell cell.now }
{
    if lacks_source(cell) {
        let [.., x, y, z, l] = *cell;
        u32::from_be_bytes([x, y, z, l]) == 0
    } else {
        let [a, .., l] = *cell;
        a % 2 + l / 2 == 0
    }
}

// Whether each cell is all zeros or holds a triple. A `for`: `all` was measured slower.
fn cells_fit(filter: &[u8]) -> bool
    ensures { result ≡ all_below (λ k. is_cell (cell width k filter.now)) (cells width filter.now) }
{
    let (cells, _) = filter.as_chunks::<CELL>();
    for cell in cells {
        if !cell_fits(cell) {
            return false;
        }
    }
    true
}

// Whether a number of bytes is that of 16, 32, 64, 128 or 256 cells.
#[tactic(auto, using(crate::proofs::Lengths::length_true, crate::proofs::Lengths::length_false))]
fn length_fits(len: usize) -> bool
    ensures { result ≡ is_length len }
{
    matches!(len, 160 | 320 | 640 | 1280 | 2560)
}

// Whether a filter is well-formed, for refusal 1. A triple in a cell that isn't its own is no fault. Not inlined: among all that a step
// does besides, its loop was measured slower.
#[inline(never)]
#[tactic(auto, unfolding(crate::specs::Triple::well_formed))]
pub fn is_well_formed(filter: &[u8]) -> bool
    ensures { result ≡ well_formed filter.now }
{
    length_fits(filter.len()) && cells_fit(filter)
}
