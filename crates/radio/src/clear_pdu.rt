// The clear PDU without NetMIC, which C reads with no struct.
ghost use Rattle.std.specs.Prelude.{◌≡◌, ◌++◌, ◌∷◌, ◌≤◌, length};
ghost use Rattle.common.specs.Lent.{lent};
ghost use Rattle.common.specs.Lists.{onto};
ghost use Rattle.network.specs.Octets.{octets};
ghost use Rattle.network.specs.Pdu.{pdu_octets, clear_front};
ghost use Rattle.radio.specs.ClearPdu.{clear_pdu};

use network::header::Header;

// Octet 0, CTL/TTL, SEQ, SRC, DST and all sixteen octets of transport. Written out: with two slices copied behind `first` the proof did not close.
fn octets_of(first: u8, h: Header) -> [u8; 25]
    ensures { result ≡ first ∷ clear_front h ++ octets 2 h.dst ++ h.transport }
{
    let f = network::sealing::clear_front(h);
    let b = network::sealing::clear_body(h);
    [
        first, f[0], f[1], f[2], f[3], f[4], f[5], b[0], b[1], b[2], b[3], b[4], b[5], b[6], b[7],
        b[8], b[9], b[10], b[11], b[12], b[13], b[14], b[15], b[16], b[17],
    ]
}

// Writes the clear PDU onto out's first octets, and says how many they are.
pub(crate) fn write(first: u8, h: Header, out: &mut [u8]) -> usize
    requires { (h.len ≤ 16) × (pdu_octets ≤ length out.old) }
    ensures { lent result out.new ≡ lent (length (clear_pdu first h)) (onto (clear_pdu first h) out.old) }
{
    let clear = octets_of(first, h);
    let n = 9 + h.len;
    common::copy(&clear[..n], out);
    n
}
