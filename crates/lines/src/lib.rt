// The lines that the bench program prints.
//
// The one idea: digits are written from the back, where they fall out of a division, into the room
// that their count has set aside; one function serves decimal numbers and hexadecimal ones. A line
// is then its parts put one behind the other.
#![tactic(auto)]

ghost use Rattle.std.specs.Prelude.{◌≡◌, ◌+◌, ◌<◌, ◌≤◌, length};
ghost use Rattle.wire.specs.Wire.{put};
ghost use Rattle.lines.specs.Lines.{decimal, digits, ending, field, hex_of, line_of, marked, refused_line, stop_line, width};

// One event's line: its number from 1 on, its letter, the refusal number or 0, the verdict's
// letter, a bit for each host that received, and the copies in flight.
#[derive(Clone, Copy, PartialEq, Eq)]
pub struct Line {
    pub number: u32,
    pub letter: u8,
    pub refusal: u8,
    pub verdict: u8,
    pub received: u32,
    pub flying: u16,
}

const SPACE: u8 = b' ';

const NEWLINE: u8 = b'\n';

const DECIMAL: u32 = 10;

const HEXADECIMAL: u32 = 16;

// The hosts that received: 32 bits are eight digits.
const MARKS: usize = 8;

// A digit as it is printed.
#[tactic(auto, unfolding(crate::specs::Lines::hex_of))]
fn hex_of(d: u8) -> u8
    requires { d < 16 }
    ensures { result ≡ hex_of d }
{
    if d < 10 { b'0' + d } else { b'a' + (d - 10) }
}

// How many decimal digits a number has; 0 has one.
fn width_of(n: u32) -> usize
    ensures { (result ≡ width n) × (result ≤ 10) }
{
    n.max(1).ilog10() as usize + 1
}

// Puts the lowest digits of a number into the output from a place on. By place: they fall out of
// the division from the back.
fn put_digits(out: &mut [u8], at: usize, n: u32, base: u32, count: usize)
    requires count_in_bounds { at + count ≤ length out.old }
    requires base_in_range { (2 ≤ base) × (base ≤ 16) }
    ensures { out.new ≡ put out.old at (digits base count n) }
{
    let mut left = n;
    for done in 0..count {
        out[at + (count - done - 1)] = hex_of((left % base) as u8);
        left /= base;
    }
}

#[tactic(auto, using(crate::proofs::Digits::decimal_long), unfolding(crate::specs::Lines::decimal))]
fn put_decimal(out: &mut [u8], at: usize, n: u32) -> usize
    requires { at + length (decimal n) ≤ length out.old }
    ensures end { result ≡ at + length (decimal n) }
    ensures output { out.new ≡ put out.old at (decimal n) }
{
    let count = width_of(n);
    put_digits(out, at, n, DECIMAL, count);
    at + count
}

fn put_field(out: &mut [u8], at: usize, n: u32, letter: u8) -> usize
    requires { at + length (field n letter) ≤ length out.old }
    ensures end { result ≡ at + length (field n letter) }
    ensures output { out.new ≡ put out.old at (field n letter) }
{
    let next = put_decimal(out, at, n);
    wire::put_at(out, next, &[SPACE, letter, SPACE]);
    next + 3
}

fn put_marked(out: &mut [u8], at: usize, received: u32) -> usize
    requires { at + length (marked received) ≤ length out.old }
    ensures end { result ≡ at + length (marked received) }
    ensures output { out.new ≡ put out.old at (marked received) }
{
    put_digits(out, at, received, HEXADECIMAL, MARKS);
    wire::put_at(out, at + MARKS, &[SPACE]);
    at + MARKS + 1
}

fn put_ending(out: &mut [u8], at: usize, n: u32) -> usize
    requires { at + length (ending n) ≤ length out.old }
    ensures end { result ≡ at + length (ending n) }
    ensures output { out.new ≡ put out.old at (ending n) }
{
    let next = put_decimal(out, at, n);
    wire::put_at(out, next, &[NEWLINE]);
    next + 1
}

// Puts an event's line into the output from a place on, and says where the next line goes.
pub fn put_line(out: &mut [u8], at: usize, l: Line) -> usize
    requires { at + length (line_of l) ≤ length out.old }
    ensures end { result ≡ at + length (line_of l) }
    ensures output { out.new ≡ put out.old at (line_of l) }
{
    let a = put_field(out, at, l.number, l.letter);
    let b = put_field(out, a, u32::from(l.refusal), l.verdict);
    let c = put_marked(out, b, l.received);
    put_ending(out, c, u32::from(l.flying))
}

// Puts what a refused description prints.
pub fn put_refused(out: &mut [u8], at: usize, n: u8) -> usize
    requires { at + length (refused_line n) ≤ length out.old }
    ensures end { result ≡ at + length (refused_line n) }
    ensures output { out.new ≡ put out.old at (refused_line n) }
{
    wire::put_at(out, at, b"refused ");
    put_ending(out, at + 8, u32::from(n))
}

// Puts what a bad event record prints.
#[tactic(auto, using(wire::proofs::Laws::put_fits), unfolding(crate::specs::Lines::stop_line, crate::specs::Lines::text))]
pub fn put_stop(out: &mut [u8], at: usize) -> usize
    requires { at + length stop_line ≤ length out.old }
    ensures end { result ≡ at + length stop_line }
    ensures output { out.new ≡ put out.old at stop_line }
{
    wire::put_at(out, at, b"stop 20\n");
    at + 8
}
