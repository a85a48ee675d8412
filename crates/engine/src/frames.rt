// Tagging and stripping. Length and header go back through references to single numbers.
ghost use Rattle.std.specs.Prelude.{[], ◌∷◌};
ghost use Rattle.engine.specs.Frames.{StripsLent, TagsLent, header_of4};

use frame::Header;

// The frame with a header, for a cable between switches.
pub fn sc_tag(
    frame: &[u8],
    l: bool,
    f: bool,
    hc: u8,
    nonce: u32,
    out: &mut [u8],
    length: &mut usize,
) -> u8
    ensures { TagsLent frame.now (header_of4 l f hc nonce) out.old (length.old ∷ []) result out.new (length.new ∷ []) }
{
    match frame::tag(frame, Header { l, f, hc, nonce }, out) {
        Err(r) => r.number(),
        Ok(n) => {
            *length = n;
            0
        }
    }
}

// The host frame and the header of a tagged frame.
pub fn sc_strip(
    frame: &[u8],
    out: &mut [u8],
    length: &mut usize,
    l: &mut u8,
    f: &mut u8,
    hc: &mut u8,
    nonce: &mut u32,
) -> u8
    ensures { StripsLent frame.now out.old (length.old ∷ l.old ∷ f.old ∷ hc.old ∷ nonce.old ∷ []) result out.new (length.new ∷ l.new ∷ f.new ∷ hc.new ∷ nonce.new ∷ []) }
{
    match frame::strip(frame, out) {
        Err(r) => r.number(),
        Ok(host) => {
            let h = host.header;
            *length = host.len;
            *l = h.l as u8;
            *f = h.f as u8;
            *hc = h.hc;
            *nonce = h.nonce;
            0
        }
    }
}
