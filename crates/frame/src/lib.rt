// Tagged frames. A host frame is destination, source, type and the rest; a tagged frame has six
// bytes more before the type: our type, and a header of four bytes. The places of all fields are
// named once, in `Frame`, and used by tagging, stripping and the switch's step alike.
//
// The header packs by shifts and masks, since it is a bit field; the definitions say the same in
// arithmetic. Tagging and stripping take any bytes: whatever isn't a frame is refused by number.
#![tactic(auto)]

ghost use Rattle.std.specs.Prelude.{◌≡◌, ◌+◌, ◌-◌, ◌≤◌, length, [], ◌∷◌};
ghost use Rattle.refusal.specs.Number.{refused_as, told};
ghost use Rattle.frame.specs.Header.{byte0, header_bytes, header_of, too_large};
ghost use Rattle.frame.specs.Frame.{destination_of, source_of, type_of, tagged_twice, header_in, at_start, stripped, has_room, tag_into, tag_refusal, strip_refusal, tag_answer, tag_output, strip_answer, strip_output, host_values};

use refusal::{Refusal, is_outside};

#[derive(Clone, Copy, PartialEq, Eq)]
pub struct Header {
    pub l: bool,
    pub f: bool,
    pub hc: u8,
    pub nonce: u32,
}

// The format's sizes and places.
#[derive(Clone, Copy, PartialEq, Eq)]
pub struct Frame {}

impl Frame {
    pub const SHORTEST: usize = 60;

    pub const LONGEST: usize = 1514;
    // What tagging adds: our type and the header.
    pub const TAG: usize = 6;

    pub const OUR_TYPE: u64 = 0x88B5;

    pub const DESTINATION: usize = 0;

    pub const SOURCE: usize = 6;

    pub const ADDRESS: usize = 6;

    pub const TYPE: usize = 12;

    pub const HEADER: usize = 14;

    pub const OLD_TYPE: usize = 18;

    pub const NONCES: u32 = 0x100_0000;

    pub const MAX_HC: u8 = 63;
}

// What stripping gives: the host frame's length, and the header.
#[derive(Clone, Copy, PartialEq, Eq)]
pub struct Host {
    pub len: usize,
    pub header: Header,
}

impl Header {
    // Byte 0 carries L in bit 7, F in bit 6 and the hop count in bits 5 to 0.
    #[tactic(auto, using(crate::proofs::Bytes::packed), unfolding(crate::specs::Header::byte0))]
    fn first_byte(self) -> u8
        ensures { result ≡ byte0 self }
    {
        (self.l as u8) << 7 | (self.f as u8) << 6 | self.hc & 63
    }

    // Whether it has more than six bits of hop count or 24 of nonce.
    fn is_too_large(self) -> bool
        ensures { result ≡ too_large self }
    {
        Frame::MAX_HC < self.hc || Frame::NONCES <= self.nonce
    }

    // The header's four bytes.
    pub fn pack(self) -> [u8; 4]
        ensures { result ≡ header_bytes self }
    {
        let [_, high, middle, low] = self.nonce.to_be_bytes();
        [self.first_byte(), high, middle, low]
    }

    // The header that the first four bytes carry.
    #[tactic(auto, using(crate::proofs::Bytes::unpacked))]
    pub fn unpack(bytes: &[u8]) -> Header
        ensures { result ≡ header_of bytes.now }
    {
        let b = bytes.first().copied().unwrap_or(0);
        Header {
            l: b >> 7 & 1 == 1,
            f: b >> 6 & 1 == 1,
            hc: b & 63,
            nonce: wire::number_at(bytes, 1, 3) as u32,
        }
    }
}

pub fn destination_of(frame: &[u8]) -> u64
    ensures { result ≡ destination_of frame.now }
{
    wire::number_at(frame, Frame::DESTINATION, Frame::ADDRESS)
}

pub fn source_of(frame: &[u8]) -> u64
    ensures { result ≡ source_of frame.now }
{
    wire::number_at(frame, Frame::SOURCE, Frame::ADDRESS)
}

pub fn type_of(frame: &[u8]) -> u64
    ensures { result ≡ type_of frame.now }
{
    wire::number_at(frame, Frame::TYPE, 2)
}

// Whether our type stands behind our tag once more.
pub fn is_tagged_twice(frame: &[u8]) -> bool
    ensures { result ≡ tagged_twice frame.now }
{
    type_of(frame) == Frame::OUR_TYPE
        && wire::number_at(frame, Frame::OLD_TYPE, 2) == Frame::OUR_TYPE
}

// The header of a tagged frame. What is too short for one has the header of four zeros.
pub fn header_in(frame: &[u8]) -> Header
    ensures { result ≡ header_in frame.now }
{
    Header::unpack(frame.get(Frame::HEADER..).unwrap_or(&[]))
}

// A length without the tag's.
fn untagged(n: usize) -> usize
    ensures { result ≡ n - 6 }
{
    n.saturating_sub(Frame::TAG)
}

// Why tagging is refused, where it is.
#[tactic(auto, unfolding(crate::specs::Frame::tag_refusal))]
fn check_tag(frame: &[u8], h: Header, room: usize) -> Result<(), Refusal>
    ensures { refused_as result ≡ tag_refusal frame.now h room }
{
    let n = frame.len();
    Refusal::BadLength.when(is_outside(Frame::SHORTEST, Frame::LONGEST, n))?;
    Refusal::TaggedInside.when(type_of(frame) == Frame::OUR_TYPE)?;
    Refusal::NoHops.when(h.hc == 0)?;
    Refusal::HeaderTooLarge.when(h.is_too_large())?;
    Refusal::NoRoom.when(room < n + Frame::TAG)
}

// Whether a tag can be put in, and what results has room.
#[tactic(auto, unfolding(crate::specs::Frame::has_room))]
fn has_room(frame: &[u8], from: usize, room: usize) -> bool
    ensures { result ≡ has_room from frame.now room }
{
    Frame::TYPE <= from && from <= frame.len() && Frame::OLD_TYPE + (frame.len() - from) <= room
}

// A frame's addresses, our type, a header, and what stands from a place on, at the output's start
// if there is room: from the type on that tags a frame, from the old type on it gives a tagged
// frame a new header.
#[tactic(auto, using(crate::proofs::Bytes::room_told, crate::proofs::Bytes::tag_put))]
pub fn write_tagged(frame: &[u8], from: usize, h: Header, out: &mut [u8])
    ensures { out.new ≡ tag_into from frame.now h out.old }
{
    if has_room(frame, from, out.len()) {
        let our_type = (Frame::OUR_TYPE as u16).to_be_bytes();
        let header = h.pack();
        wire::put_at(out, 0, &frame[..Frame::TYPE]);
        wire::put_at(out, Frame::TYPE, &our_type);
        wire::put_at(out, Frame::HEADER, &header);
        wire::put_at(out, Frame::OLD_TYPE, &frame[from..]);
    }
}

// The frame with a header, for a cable between switches. The answer is the tagged frame's length.
#[tactic(auto, using(crate::proofs::Laws::taggable, crate::proofs::Laws::into_room), unfolding(crate::specs::Frame::tagged))]
pub fn tag(frame: &[u8], h: Header, out: &mut [u8]) -> Result<usize, Refusal>
    ensures answer { told (λ n. n ∷ []) result ≡ tag_answer frame.now h (length out.old) }
    ensures output { out.new ≡ tag_output frame.now h out.old }
{
    check_tag(frame, h, out.len())?;
    write_tagged(frame, Frame::TYPE, h, out);
    Ok(frame.len() + Frame::TAG)
}

// Why stripping is refused, where it is.
#[tactic(auto, unfolding(crate::specs::Frame::strip_refusal))]
fn check_strip(frame: &[u8], room: usize) -> Result<(), Refusal>
    ensures { refused_as result ≡ strip_refusal frame.now room }
{
    let n = frame.len();
    let shortest = Frame::SHORTEST + Frame::TAG;
    let longest = Frame::LONGEST + Frame::TAG;
    Refusal::BadLength.when(is_outside(shortest, longest, n))?;
    Refusal::TaggedInside.when(is_tagged_twice(frame))?;
    Refusal::NotTagged.when(type_of(frame) != Frame::OUR_TYPE)?;
    let h = header_in(frame);
    Refusal::NoHops.when(h.hc == 0)?;
    Refusal::NoRoom.when(room < untagged(n))
}

// The host frame, at the output's start.
#[tactic(auto, using(crate::proofs::Bytes::host_put))]
fn write_stripped(frame: &[u8], out: &mut [u8])
    requires { (18 ≤ length frame.now) × (length frame.now ≤ length out.old + 6) }
    ensures { out.new ≡ at_start (stripped frame.now) out.old }
{
    wire::put_at(out, 0, &frame[..Frame::TYPE]);
    wire::put_at(out, Frame::TYPE, &frame[Frame::OLD_TYPE..]);
}

// The host frame and the header of a tagged frame.
#[tactic(auto, using(crate::proofs::Laws::strippable))]
pub fn strip(frame: &[u8], out: &mut [u8]) -> Result<Host, Refusal>
    ensures answer { told host_values result ≡ strip_answer frame.now (length out.old) }
    ensures output { out.new ≡ strip_output frame.now out.old }
{
    check_strip(frame, out.len())?;
    write_stripped(frame, out);
    Ok(Host {
        len: untagged(frame.len()),
        header: header_in(frame),
    })
}
