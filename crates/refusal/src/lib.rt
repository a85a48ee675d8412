// Why a call is refused: document 01's table of refusal numbers, and what every refusal of it has in
// common: its causes stand in an order, and the first one that holds decides. A call goes through its
// causes as through the document's table, one `when` and its `?` a row, and the laws here say that it
// then refuses with n exactly when cause n holds and none before it.
#![tactic(auto)]

ghost use Rattle.std.specs.Prelude.{◌≡◌, true, false, IfErr, OnOk};
ghost use Rattle.refusal.specs.Number.{number_of};
ghost use Rattle.refusal.specs.Refusal.{outside};

use std::fmt;

// The document's table, row by row.
#[derive(Clone, Copy, PartialEq, Eq, Debug)]
pub enum Refusal {
    IllFormed = 1,
    NoSuchPort = 2,
    PortDown = 3,
    BadLength = 4,
    BadSource = 5,
    TaggedInside = 6,
    NotTagged = 7,
    NoHops = 8,
    NoRoom = 9,
    HeaderTooLarge = 10,
    BadRecord = 20,
    NoVersion = 21,
    OutOfRange = 22,
    PortTaken = 23,
    BadAddress = 24,
    TooMany = 25,
    OutOfOrder = 26,
    NoRoomToWrite = 27,
    OutOfShape = 28,
    NoSuchHost = 30,
    ToNobody = 31,
    NoSuchCopy = 32,
    NoSuchLink = 33,
    TooManyEvents = 34,
}

impl Refusal {
    // The document's number: a refusal carries it alone.
    pub fn number(self) -> u8
        ensures { result ≡ number_of self }
    {
        self as u8
    }

    // One row: a call is refused for it where its cause holds.
    pub fn when(self, holds: bool) -> Result<(), Refusal>
        ensures passed { OnOk result (holds ≡ false) }
        ensures refused { IfErr result (λ r. (r ≡ self) × (holds ≡ true)) }
    {
        if holds { Err(self) } else { Ok(()) }
    }
}

impl fmt::Display for Refusal {
    fn fmt<W: fmt::Write>(&self, f: &mut fmt::Formatter<W>) -> fmt::Result {
        write!(f, "{}", self.number())
    }
}

// Whether a number isn't low..high.
pub fn is_outside(low: usize, high: usize, n: usize) -> bool
    ensures { result ≡ outside low high n }
{
    n < low || high < n
}
