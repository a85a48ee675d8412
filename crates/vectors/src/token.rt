// The tokens of a line, read from its front. What isn't there, or doesn't fit where it goes, is none, and such a line is
// unreadable.

ghost use Rattle.std.specs.Prelude.{◌<◌, ◌≤◌, IfSome, length};

// The longest frame, filter, output and input that a vector has.
pub(crate) const FRAME: usize = 1_536;

pub(crate) const FILTER: usize = 5_120;

pub(crate) const OUTPUT: usize = 2_048;

pub(crate) const INPUT: usize = 60_100;

const MOST_DIGITS: usize = 16;

// What is left of a line.
#[derive(Clone, Copy)]
pub(crate) struct Tokens<'a> {
    rest: &'a [u8],
}

// What is read as one token or as several.
pub(crate) trait Token: Sized {
    fn read(line: &mut Tokens<'_>) -> Option<Self>;
}

// A hex digit's number.
fn digit(b: u8) -> Option<u8>
    ensures { IfSome result (λ d. d < 16) }
{
    match b {
        b'0'..=b'9' => Some(b - b'0'),
        b'a'..=b'f' => Some(b - b'a' + 10),
        _ => None,
    }
}

// How many hex digits stand in front.
fn digits(bytes: &[u8]) -> usize
    ensures { result ≤ length bytes.now }
{
    let end = bytes.iter().position(|b| digit(*b).is_none());
    end.unwrap_or(bytes.len())
}

// The number that hex digits write, its lowest sixteen.
fn value_of(digits: &[u8]) -> u64 {
    let mut value: u64 = 0;
    for b in digits {
        value = value << 4 | digit(*b).unwrap_or(0) as u64;
    }
    value
}

impl<'a> Tokens<'a> {
    pub(crate) fn new(rest: &'a [u8]) -> Tokens<'a> {
        Tokens { rest }
    }

    // What all that is left of the line says.
    pub(crate) fn whole<T: Token + Drop>(mut self) -> Option<T> {
        let read = self.read()?;
        self.end()?;
        Some(read)
    }

    // A whole input, into a room of zeros, from all that is left of the line: bytes, and so many zeros behind them; how
    // many in all.
    pub(crate) fn whole_input(mut self, room: &mut [u8]) -> Option<usize>
        ensures { IfSome result (λ n. n ≤ length room.new) }
    {
        let count = self.bytes(room)?;
        let long = count + self.at_most(room.len() - count)?;
        self.end()?;
        Some(long)
    }

    // The line's end.
    fn end(&self) -> Option<()> {
        if self.rest.is_empty() { Some(()) } else { None }
    }

    // A byte, not a token of its own.
    fn byte(&mut self, b: u8) -> Option<()> {
        let (first, rest) = self.rest.split_first()?;
        if *first != b {
            return None;
        }
        self.rest = rest;
        Some(())
    }

    pub(crate) fn number(&mut self) -> Option<u64> {
        self.byte(b' ')?;
        let count = digits(self.rest);
        if count < 1 || MOST_DIGITS < count {
            return None;
        }
        let (digits, rest) = self.rest.split_at(count);
        self.rest = rest;
        Some(value_of(digits))
    }

    pub(crate) fn read<T: Token>(&mut self) -> Option<T> {
        T::read(self)
    }

    // A number of at most so much.
    pub(crate) fn at_most(&mut self, most: usize) -> Option<usize>
        ensures { IfSome result (λ n. n ≤ most) }
    {
        let n = self.number()?;
        if n <= most as u64 {
            Some(n as usize)
        } else {
            None
        }
    }

    // An index of so many places.
    pub(crate) fn index(&mut self, places: usize) -> Option<usize>
        ensures { IfSome result (λ n. n < places) }
    {
        let n = self.number()?;
        if n < places as u64 {
            Some(n as usize)
        } else {
            None
        }
    }

    // This number and no other.
    pub(crate) fn exactly(&mut self, n: u64) -> Option<()> {
        if self.number()? == n { Some(()) } else { None }
    }

    pub(crate) fn letter(&mut self, b: u8) -> Option<()> {
        self.byte(b' ')?;
        self.byte(b)
    }

    // Whether the next byte is a hex digit.
    fn is_at_digit(&self) -> bool {
        self.rest.first().is_some_and(|b| digit(*b).is_some())
    }

    // The byte that two digits write.
    fn pair(&mut self) -> Option<u8> {
        let [high, low, rest @ ..] = self.rest else {
            return None;
        };
        let value = digit(*high)? * 16 + digit(*low)?;
        self.rest = rest;
        Some(value)
    }

    // Bytes, into a buffer that has room for them; how many.
    pub(crate) fn bytes(&mut self, buffer: &mut [u8]) -> Option<usize>
        ensures { IfSome result (λ n. n ≤ length buffer.new) }
    {
        self.byte(b' ')?;
        if self.byte(b'-').is_some() {
            return Some(0);
        }
        let mut count = 0;
        for b in &mut *buffer {
            if !self.is_at_digit() {
                break;
            }
            *b = self.pair()?;
            count += 1;
        }
        if count == 0 || self.is_at_digit() {
            return None;
        }
        Some(count)
    }

    // So many pieces of a buffer, each behind its offset.
    pub(crate) fn pieces(&mut self, buffer: &mut [u8]) -> Option<()> {
        for _ in 0..self.at_most(FILTER)? {
            let from = self.at_most(buffer.len())?;
            self.bytes(&mut buffer[from..])?;
        }
        Some(())
    }

    // So many items of an array, each behind its index.
    pub(crate) fn items<T: Token + Drop>(&mut self, items: &mut [T]) -> Option<()> {
        for _ in 0..self.at_most(items.len())? {
            let i = self.index(items.len())?;
            items[i] = self.read()?;
        }
        Some(())
    }
}

// Bytes in a room of N.
#[derive(Clone, Copy)]
pub(crate) struct Bytes<const N: usize> {
    room: [u8; N],
    long: usize,
    ghost fits: { long ≤ N },
}

impl<const N: usize> Bytes<N> {
    pub(crate) fn all(&self) -> &[u8] {
        &self.room[..self.long]
    }

    pub(crate) fn all_mut(&mut self) -> &mut [u8] {
        let long = self.long;
        let room = &mut self.room;
        let all = &mut room[..];
        &mut all[..long]
    }
}

impl<const N: usize> Token for Bytes<N> {
    fn read(line: &mut Tokens<'_>) -> Option<Bytes<N>> {
        let mut room = [0; N];
        let long = line.bytes(&mut room)?;
        Some(Bytes { room, long })
    }
}

// A filter: its length, and the pieces that aren't zeros.
#[derive(Clone, Copy)]
pub(crate) struct Filter(pub Bytes<FILTER>);

impl Token for Filter {
    fn read(line: &mut Tokens<'_>) -> Option<Filter> {
        let mut room = [0; FILTER];
        let long = line.at_most(FILTER)?;
        line.pieces(&mut room[..long])?;
        Some(Filter(Bytes { room, long }))
    }
}

// An output before a call: its length, and its first byte; each is one more than the last.
#[derive(Clone, Copy)]
pub(crate) struct Output {
    long: usize,
    first: u8,
    ghost fits: { long ≤ 2048 },
}

impl Token for Output {
    fn read(line: &mut Tokens<'_>) -> Option<Output> {
        let long = line.at_most(OUTPUT)?;
        let first = line.read()?;
        Some(Output { long, first })
    }
}

impl Output {
    pub(crate) fn bytes(self) -> Bytes<OUTPUT> {
        let mut room = [0; OUTPUT];
        for (i, b) in room.iter_mut().enumerate() {
            *b = ((self.first as usize + i % 256) % 256) as u8;
        }
        Bytes {
            room,
            long: self.long,
        }
    }
}

impl Token for u64 {
    fn read(line: &mut Tokens<'_>) -> Option<u64> {
        line.number()
    }
}

impl Token for u32 {
    fn read(line: &mut Tokens<'_>) -> Option<u32> {
        u32::try_from(line.number()?).ok()
    }
}

impl Token for u16 {
    fn read(line: &mut Tokens<'_>) -> Option<u16> {
        u16::try_from(line.number()?).ok()
    }
}

impl Token for u8 {
    fn read(line: &mut Tokens<'_>) -> Option<u8> {
        u8::try_from(line.number()?).ok()
    }
}

// A flag is 0 or 1.
impl Token for bool {
    fn read(line: &mut Tokens<'_>) -> Option<bool> {
        let n = line.at_most(1)?;
        Some(n == 1)
    }
}
