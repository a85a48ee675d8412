// Masks over the sixteen ports that a switch may have.
ghost use Rattle.std.specs.Prelude.{◌≡◌, ◌<◌};
ghost use Rattle.rules.specs.Mask.{names, only, all_but};

// Whether a mask names a port; none names a port from 16 on.
#[tactic(auto, using(crate::proofs::Bits::names_bit, crate::proofs::Bits::names_high))]
pub fn has_port(mask: u16, port: u8) -> bool
    ensures { result ≡ names mask port }
{
    port < 16 && mask >> (port as u16) & 1 == 1
}

pub fn only_port(port: u8) -> u16
    requires { port < 16 }
    ensures { result ≡ only port }
{
    1u16 << (port as u16)
}

#[tactic(auto, unfolding(crate::specs::Mask::all_but))]
pub(crate) fn all_but(port: u8, mask: u16) -> u16
    requires { port < 16 }
    ensures { result ≡ all_but port mask }
{
    mask & !only_port(port)
}
