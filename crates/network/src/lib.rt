// The network description: which heads a stand has, and how they are cabled.
//
// The one idea: what came before a record is itself a network. So the checks of a record are one
// function of the network so far and the record; the reader asks it of each record that it finds,
// the writer of each record that its network has, and both then take the record in. What is
// accepted by one is accepted by the other.
//
// A network is three arrays with counts, by value. Unused places are no part of it: they are never
// looked at, and the reader leaves them all zeros. A count may say more than its array has; such a
// network has more records than there may be, and is refused for that.
#![tactic(auto)]

ghost use Rattle.std.specs.Prelude.{◌≡◌, ◌∷◌, [], length, IfOk};
ghost use Rattle.refusal.specs.Refusal.{answered};
ghost use Rattle.refusal.specs.Number.{refused_as, told};
ghost use Rattle.network.specs.Network.{empty_network, limit_of};
ghost use Rattle.network.specs.Checks.{network_fault};
ghost use Rattle.network.specs.Describe.{end_values, image, read_end, read_fault, read_network, versionless, write_fault, written};

use refusal::Refusal;

mod checks;
mod format;
pub mod places;
mod records;

// A port of a switch: the switch's number, and the port's on it.
#[derive(Clone, Copy, PartialEq, Eq)]
pub struct Port {
    pub switch: u8,
    pub number: u8,
}

#[derive(Clone, Copy, PartialEq, Eq)]
pub struct Switch {
    pub ports: u8,
    pub limit: u8,
    pub salt: u32,
}

#[derive(Clone, Copy, PartialEq, Eq)]
pub struct Host {
    pub port: Port,
    pub address: u64,
}

#[derive(Clone, Copy, PartialEq, Eq)]
pub struct Link {
    pub first: Port,
    pub second: Port,
}

// Arrays with their counts beside them: memory is fixed, the C layout has both, and the theorems
// speak of counts beyond the arrays.
#[derive(Clone, Copy, PartialEq, Eq)]
pub struct Network {
    pub switches: [Switch; Network::SWITCHES],
    pub hosts: [Host; Network::HOSTS],
    pub links: [Link; Network::LINKS],
    pub nswitches: u8,
    pub nhosts: u8,
    pub nlinks: u8,
}

// One record of a description.
#[derive(Clone, Copy, PartialEq, Eq)]
pub enum Record {
    Switch(Switch),
    Host(Host),
    Link(Link),
}

// What the reader reads: the network, and before which byte its description ends.
#[derive(Clone, Copy, PartialEq, Eq)]
pub struct Description {
    pub network: Network,
    pub end: usize,
}

impl Port {
    // What stands at an unused place: all zeros.
    pub const NONE: Port = Port {
        switch: 0,
        number: 0,
    };
}

impl Switch {
    pub const PORTS: u8 = 8;

    pub const LIMIT: u8 = 62;

    pub const DEFAULT_LIMIT: u8 = 16;

    pub const NONE: Switch = Switch {
        ports: 0,
        limit: 0,
        salt: 0,
    };

    // The hop limit that the switch steps with.
    #[tactic(auto, unfolding(crate::specs::Network::limit_of))]
    pub fn hop_limit(self) -> u8
        ensures { result ≡ limit_of self }
    {
        if self.limit == 0 {
            Switch::DEFAULT_LIMIT
        } else {
            self.limit
        }
    }
}

impl Host {
    pub const NONE: Host = Host {
        port: Port::NONE,
        address: 0,
    };
}

impl Link {
    pub const NONE: Link = Link {
        first: Port::NONE,
        second: Port::NONE,
    };
}

impl Network {
    // The longest input, events included.
    pub const INPUT: usize = 60_000;

    pub const VERSION: u8 = 1;

    pub const SWITCHES: usize = 16;

    pub const HOSTS: usize = 32;

    pub const LINKS: usize = 64;

    #[tactic(auto, unfolding(crate::specs::Network::empty_network))]
    pub fn empty() -> Self
        ensures { result ≡ empty_network }
    {
        Network {
            switches: [Switch::NONE; Network::SWITCHES],
            hosts: [Host::NONE; Network::HOSTS],
            links: [Link::NONE; Network::LINKS],
            nswitches: 0,
            nhosts: 0,
            nlinks: 0,
        }
    }

    // Why the writer would refuse the network, room aside, where it would.
    pub fn check(&self) -> Result<(), Refusal>
        ensures { refused_as result ≡ network_fault self.now }
    {
        let mut seen = Network::empty();
        for i in 0..records::count(self) {
            checks::take_in(&mut seen, records::record_at(self, i))?;
        }
        Ok(())
    }
}

// The input is empty, or its first byte is not the version.
#[tactic(auto, unfolding(crate::specs::Describe::versionless))]
fn is_versionless(input: &[u8]) -> bool
    ensures { result ≡ versionless input.now }
{
    input.is_empty() || input[0] != Network::VERSION
}

// The description that the input starts with: up to its end, or to the first event.
pub fn read(input: &[u8]) -> Result<Description, Refusal>
    ensures answer { told (λ d. end_values d.end) result ≡ answered (read_fault input.now) (read_end input.now ∷ []) }
    ensures network { IfOk result (λ d. d.network ≡ read_network input.now) }
{
    Refusal::TooMany.when(Network::INPUT < input.len())?;
    Refusal::NoVersion.when(is_versionless(input))?;
    let mut network = Network::empty();
    let mut end: usize = 1;
    while let Some(r) = format::start_at(input, end)? {
        checks::take_in(&mut network, r)?;
        end += format::size(r);
    }
    Ok(Description { network, end })
}

// The network that stands beside that answer: of an input that is refused, the empty one.
pub fn read_or_empty(input: &[u8]) -> Network
    ensures { result ≡ read_network input.now }
{
    match read(input) {
        Ok(d) => d.network,
        Err(_) => Network::empty(),
    }
}

// Writes the network's description at the output's start, and says how many bytes it takes.
pub fn write(n: &Network, out: &mut [u8]) -> Result<usize, Refusal>
    ensures answer { told end_values result ≡ answered (write_fault n.now (length out.old)) (length (image n.now) ∷ []) }
    ensures output { out.new ≡ written n.now out.old }
{
    n.check()?;
    let long = records::size(n);
    Refusal::NoRoomToWrite.when(out.len() < long)?;
    records::put_all(n, out);
    Ok(long)
}
