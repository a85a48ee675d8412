// The records of a network, one after the other: how many there are, which, and their bytes. A
// count may say more than its array has; what stands behind the array's end is all zeros.
ghost use Rattle.std.specs.Prelude.{◌≡◌, ◌<◌, ◌≤◌, get_or, length};
ghost use Rattle.wire.specs.Wire.{put};
ghost use Rattle.network.specs.Network.{no_switch, records};
ghost use Rattle.network.specs.Describe.{image};

use crate::{Network, Record, format};

// How many records the network's description has.
pub(crate) fn count(n: &Network) -> usize
    ensures { result ≡ length (records n.now) }
{
    n.nswitches as usize + n.nhosts as usize + n.nlinks as usize
}

// Record i of the network's description: by number, since the records run through three arrays.
pub(crate) fn record_at(n: &Network, i: usize) -> Record
    requires { i < length (records n.now) }
    ensures { result ≡ get_or (records n.now) i (Record.Switch no_switch) }
{
    let nswitches = n.nswitches as usize;
    let nhosts = n.nhosts as usize;
    if i < nswitches {
        return Record::Switch(n.switch(i));
    }
    let j = i - nswitches;
    if j < nhosts {
        return Record::Host(n.host(j));
    }
    Record::Link(n.link(j - nhosts))
}

// How many bytes the network's description takes.
pub(crate) fn size(n: &Network) -> usize
    ensures { result ≡ length (image n.now) }
{
    let switches = n.nswitches as usize * format::SWITCH_SIZE;
    let hosts = n.nhosts as usize * format::HOST_SIZE;
    let links = n.nlinks as usize * format::LINK_SIZE;
    1 + switches + hosts + links
}

// Puts the network's description at the output's start.
pub(crate) fn put_all(n: &Network, out: &mut [u8])
    requires { length (image n.now) ≤ length out.old }
    ensures { out.new ≡ put out.old 0 (image n.now) }
{
    wire::put_at(out, 0, &[Network::VERSION]);
    let mut at: usize = 1;
    for i in 0..count(n) {
        let r = record_at(n, i);
        format::put_record(out, at, r);
        at += format::size(r);
    }
}
