// The copies in flight: a list kept in the first places of an array, in the order in which they joined.
//
// Whatever leaves the list, those behind it move up, so that the list has no gaps. The work is done on copies packed into
// three words each and lent as a slice, so that nothing but what moves is written; a bench by value holds them as structs.
#![tactic(auto)]

ghost use Rattle.std.specs.Prelude.{◌++◌, ◌≡◌, ◌-◌, ◌<◌, ◌≤◌, length, replicate};
ghost use Rattle.flight.specs.Flight.{Cut, Joined, Ranged, TakenOut, Worded, copies_in, copy_at, most, no_copy, pack, unpack};

use frame::Header;

// A frame on its way over a link.
#[derive(Clone, Copy, PartialEq, Eq)]
pub struct Copy {
    pub link: u8,
    // Whether the link's second end receives it.
    pub second: bool,
    pub source: u64,
    pub destination: u64,
    pub header: Header,
}

impl Copy {
    pub const MOST: usize = 512;

    // What stands in an empty place.
    pub fn empty() -> Self
        ensures { result ≡ no_copy }
    {
        Copy {
            link: 0,
            second: false,
            source: 0,
            destination: 0,
            header: Header {
                l: false,
                f: false,
                hc: 0,
                nonce: 0,
            },
        }
    }

    // Three words: the two addresses, and the rest, each in bits of its own: link 8, second 1, L 1, F 1, HC 8, nonce 32.
    pub fn packed(self) -> [u64; 3]
        ensures words { result ≡ pack self }
        ensures ranged { Ranged self }
    {
        let h = self.header;
        let flags = self.second as u64 + 2 * (h.l as u64) + 4 * (h.f as u64);
        [
            self.source,
            self.destination,
            self.link as u64 + 0x100 * flags + 0x800 * (h.hc as u64) + 0x8_0000 * (h.nonce as u64),
        ]
    }

    // The copy that three words carry.
    pub fn unpacked(w: [u64; 3]) -> Self
        ensures { result ≡ unpack w }
    {
        let rest = w[2];
        Copy {
            link: (rest % 0x100) as u8,
            second: rest / 0x100 % 2 == 1,
            source: w[0],
            destination: w[1],
            header: Header {
                l: rest / 0x200 % 2 == 1,
                f: rest / 0x400 % 2 == 1,
                hc: (rest / 0x800 % 0x100) as u8,
                nonce: (rest / 0x8_0000 % 0x1_0000_0000) as u32,
            },
        }
    }
}

// The copies in flight, packed, in the first places of an array.
#[derive(Drop)]
pub struct Flight {
    pub words: [[u64; 3]; Copy::MOST],
    pub flying: usize,
    pub ghost whole: { length words ≡ most },
    pub ghost few: { flying ≤ most },
}

// Of n copies, the one at a place is taken out, and those behind it move up one.
#[tactic(auto, using(crate::proofs::Sweep::moved_starts, crate::proofs::Sweep::moved_next, crate::proofs::Sweep::moved_ends))]
pub fn take_out(words: &mut [[u64; 3]], n: usize, place: usize)
    requires { (place < n) × (n ≤ length words.old) }
    ensures { TakenOut place n words.old words.new }
{
    // By index: each copy moves within the array that it is read from.
    for i in place + 1..n {
        let w = words[i];
        words[i - 1] = w;
    }
}

// Of n copies, those on a link are cut, and the others move up; how many are left.
pub fn cut(words: &mut [[u64; 3]], n: usize, link: u8) -> usize
    requires { n ≤ length words.old }
    ensures { Cut link n words.old words.new result }
{
    let mut left: usize = 0;
    // By index: those left move within the array that they are read from.
    for i in 0..n {
        let w = words[i];
        // The link is in the lowest bits.
        if w[2] % 0x100 == link as u64 {
            continue;
        }
        words[left] = w;
        left += 1;
    }
    left
}

// One copy more at the end of the list.
#[tactic(auto, using(crate::proofs::Laws::joined))]
pub fn join(words: &mut [[u64; 3]], n: usize, c: Copy)
    requires { n < length words.old }
    ensures { Joined n c words.old words.new }
{
    let w = c.packed();
    words[n] = w;
}

// The copy at a place; all zeros behind the array's end.
#[tactic(auto, unfolding(crate::specs::Flight::unpack))]
pub fn copy_at(words: &[[u64; 3]], place: usize) -> Copy
    ensures { result ≡ copy_at words.now place }
{
    if place < words.len() {
        Copy::unpacked(words[place])
    } else {
        Copy::empty()
    }
}

// The words of the first n copies, zeros behind them.
pub fn words_of(copies: &[Copy; Copy::MOST], n: usize) -> [[u64; 3]; Copy::MOST]
    requires { n ≤ most }
    ensures { Worded n copies.now result }
{
    let mut words = [[0u64; 3]; Copy::MOST];
    // By index: two arrays, of which only the first n places count.
    for i in 0..n {
        words[i] = copies[i].packed();
    }
    words
}

// The copies that the first n words carry, none behind them.
#[tactic(auto, using(crate::proofs::Sweep::unpacked_starts, crate::proofs::Sweep::unpacked_next))]
pub fn copies_of(words: &[[u64; 3]], n: usize) -> [Copy; Copy::MOST]
    requires { (n ≤ length words.now) × (n ≤ most) }
    ensures { result ≡ copies_in n words.now ++ replicate (most - n) no_copy }
{
    let mut copies = [Copy::empty(); Copy::MOST];
    // By index: two arrays, of which only the first n places count.
    for i in 0..n {
        copies[i] = Copy::unpacked(words[i]);
    }
    copies
}
