// Switches, hosts and links by number. A number may be behind an array's end, where all is zeros.
ghost use Rattle.std.specs.Prelude.{◌≡◌, get_or};
ghost use Rattle.network.specs.Network.{no_host, no_link, no_switch};

use crate::{Host, Link, Network, Switch};

// Element i, the unused one behind the end.
pub fn nth<T: Copy>(array: &[T], i: usize, unused: T) -> T
    ensures { result ≡ get_or array.now i unused }
{
    if i < array.len() { array[i] } else { unused }
}

impl Network {
    pub fn switch(&self, i: usize) -> Switch
        ensures { result ≡ get_or self.now.switches i no_switch }
    {
        nth(&self.switches, i, Switch::NONE)
    }

    pub fn host(&self, i: usize) -> Host
        ensures { result ≡ get_or self.now.hosts i no_host }
    {
        nth(&self.hosts, i, Host::NONE)
    }

    pub fn link(&self, i: usize) -> Link
        ensures { result ≡ get_or self.now.links i no_link }
    {
        nth(&self.links, i, Link::NONE)
    }
}
