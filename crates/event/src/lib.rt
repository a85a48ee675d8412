// The events of a bench, and the records that they stand in behind a description.
//
// The one idea: whether a record is whole is asked once, before anything of it is read; so an event
// is read without a second question, and its values mean what they say. An address is six bytes
// here, as in a frame, so that none is without a meaning.
#![tactic(auto)]

ghost use Rattle.std.specs.Prelude.{◌≡◌, ◌+◌, ◌≤◌, ◌<◌, drop, length, IfOk, IfErr};
ghost use Rattle.refusal.specs.Number.{refused_as, told};
ghost use Rattle.wire.specs.Address.{address_bound};
ghost use Rattle.network.specs.Format.{kind_in};
ghost use Rattle.event.specs.Event.{address_in, address_of, byte_of, event_fault, event_length, event_of, event_values, letter_of, read_answer, size_of};

use refusal::Refusal;

// An address, as its bytes stand in a frame: by name, as the definitions and a copy's words have
// them.
#[derive(Clone, Copy, PartialEq, Eq)]
pub struct Address {
    pub b0: u8,
    pub b1: u8,
    pub b2: u8,
    pub b3: u8,
    pub b4: u8,
    pub b5: u8,
}

// A frame that a host presents.
#[derive(Clone, Copy, PartialEq, Eq)]
pub struct Presented {
    pub host: u8,
    pub to: Address,
}

// What a link is set to: 0 is down, 1 is up.
#[derive(Clone, Copy, PartialEq, Eq)]
pub struct Setting {
    pub link: u8,
    pub state: u8,
}

// What happens on a bench: a host presents a frame, the copy at a place is taken, a link is set.
#[derive(Clone, Copy, PartialEq, Eq)]
pub enum Event {
    Present(Presented),
    Take(u16),
    Link(Setting),
}

impl Address {
    // The number that the six bytes write.
    #[tactic(auto, unfolding(crate::specs::Event::address_of))]
    pub fn number(self) -> u64
        ensures value { result ≡ address_of self }
        ensures bound { result < address_bound }
    {
        let bytes = [self.b0, self.b1, self.b2, self.b3, self.b4, self.b5];
        wire::number_at(&bytes, 0, 6)
    }
}

// The kinds of events' records, by their byte.
#[derive(Clone, Copy)]
enum Kind {
    Present = 4,
    Take = 5,
    Link = 6,
}

const PRESENT_LENGTH: u8 = 8;

const TAKE_LENGTH: u8 = 3;

const LINK_LENGTH: u8 = 3;

// What a record takes: its length doesn't count its own two bytes.
const PRESENT_SIZE: usize = 10;

const TAKE_SIZE: usize = 5;

const LINK_SIZE: usize = 5;

// I, T and K.
const PRESENT_LETTER: u8 = 0x49;

const TAKE_LETTER: u8 = 0x54;

const LINK_LETTER: u8 = 0x4B;

impl Kind {
    // The kind that a byte names, if it names one.
    #[tactic(auto, unfolding(crate::specs::Event::event_length))]
    fn of(byte: u8) -> Result<Kind, Refusal>
        ensures known { IfOk result (λ kind. byte_of kind ≡ byte) }
        ensures unknown { IfErr result (λ r. (r ≡ Refusal.BadRecord) × (event_length byte ≡ 0)) }
    {
        match byte {
            4 => Ok(Kind::Present),
            5 => Ok(Kind::Take),
            6 => Ok(Kind::Link),
            _ => Err(Refusal::BadRecord),
        }
    }

    // What the length of its records says.
    #[tactic(auto, unfolding(crate::specs::Event::event_length))]
    fn length(self) -> u8
        ensures value { result ≡ event_length (byte_of self) }
        ensures least { 3 ≤ result }
    {
        match self {
            Kind::Present => PRESENT_LENGTH,
            Kind::Take => TAKE_LENGTH,
            Kind::Link => LINK_LENGTH,
        }
    }
}

// The kind of the record that bytes start with; it may be cut short, of wrong length or of unknown
// kind.
#[tactic(auto, unfolding(crate::specs::Event::event_fault, crate::specs::Event::bad_event, network::specs::Format::headless))]
fn kind_of(bytes: &[u8]) -> Result<Kind, Refusal>
    ensures number { refused_as result ≡ event_fault bytes.now }
    ensures kind { IfOk result (λ kind. byte_of kind ≡ kind_in bytes.now) }
    ensures room { IfOk result (λ kind. event_length (byte_of kind) + 2 ≤ length bytes.now) }
{
    Refusal::BadRecord.when(bytes.len() < 3)?;
    let kind = Kind::of(bytes[2])?;
    let long = kind.length() as usize;
    Refusal::BadRecord.when(wire::number_at(bytes, 0, 2) != long as u64)?;
    Refusal::BadRecord.when(bytes.len() < long + 2)?;
    Ok(kind)
}

fn address_at(bytes: &[u8], at: usize) -> Address
    requires { at + 6 ≤ length bytes.now }
    ensures { result ≡ address_in at bytes.now }
{
    Address {
        b0: bytes[at],
        b1: bytes[at + 1],
        b2: bytes[at + 2],
        b3: bytes[at + 3],
        b4: bytes[at + 4],
        b5: bytes[at + 5],
    }
}

// The event of a kind that a body starts with.
#[tactic(auto, unfolding(crate::specs::Event::event_of, crate::specs::Event::event_length))]
fn event_of(kind: Kind, body: &[u8]) -> Event
    requires { event_length (byte_of kind) ≤ length body.now + 1 }
    ensures { result ≡ event_of (byte_of kind) body.now }
{
    match kind {
        Kind::Present => Event::Present(Presented {
            host: body[0],
            to: address_at(body, 1),
        }),
        Kind::Take => Event::Take(wire::number_at(body, 0, 2) as u16),
        Kind::Link => Event::Link(Setting {
            link: body[0],
            state: body[1],
        }),
    }
}

// The event whose record starts at a place of the input, if there is one.
#[tactic(auto, unfolding(crate::specs::Event::event_fault))]
pub fn read_event(input: &[u8], at: usize) -> Result<Event, Refusal>
    ensures { told event_values result ≡ read_answer (drop at input.now) }
{
    let bytes = &input[at.min(input.len())..];
    let kind = kind_of(bytes)?;
    Ok(event_of(kind, &bytes[3..]))
}

// The letter that an event is printed with.
#[tactic(auto, unfolding(crate::specs::Event::letter_of))]
pub fn letter_of(e: Event) -> u8
    ensures { result ≡ letter_of e }
{
    match e {
        Event::Present(_) => PRESENT_LETTER,
        Event::Take(_) => TAKE_LETTER,
        Event::Link(_) => LINK_LETTER,
    }
}

// How many bytes an event's record takes.
#[tactic(auto, unfolding(crate::specs::Event::size_of, crate::specs::Event::event_length, crate::specs::Event::kind_of))]
pub fn size_of(e: Event) -> usize
    ensures { result ≡ size_of e }
{
    match e {
        Event::Present(_) => PRESENT_SIZE,
        Event::Take(_) => TAKE_SIZE,
        Event::Link(_) => LINK_SIZE,
    }
}
