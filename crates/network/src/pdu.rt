// The parts of a Network PDU that opening and sealing share: its front hidden and shown, and the size of its NetMIC.
ghost use Rattle.std.specs.Prelude.{◌≡◌, ◌+◌, ◌≤◌, length, take, drop};
ghost use Rattle.network.specs.Pdu.{net_mic, obfuscated};

use keys::NetworkKeys;
use modes::ccm::MicSize;
use std::array;

// The size of the NetMIC.
pub(crate) fn net_mic(ctl: bool) -> MicSize
    ensures { result ≡ net_mic ctl }
{
    if ctl { MicSize::Eight } else { MicSize::Four }
}

// Octets 1-6 hidden, or shown again, by the privacy key. The random octets are octets 7-13 of the PDU.
pub(crate) fn obfuscate(key: NetworkKeys, iv: u32, front: [u8; 6], random: [u8; 7]) -> [u8; 6]
    ensures { result ≡ obfuscated key iv front random }
{
    let mut block = [0; 16];
    block[5..9].copy_from_slice(&iv.to_be_bytes());
    block[9..].copy_from_slice(&random);
    let b = aes::encrypt(aes::expand(key.privacy), block);
    array::from_fn(|i| front[i] ^ b[i])
}

// The seven octets of s from `at` on.
pub(crate) fn seven(s: &[u8], at: usize) -> [u8; 7]
    requires { at + 7 ≤ length s.now }
    ensures { result ≡ take 7 (drop at s.now) }
{
    let mut octets = [0; 7];
    octets.copy_from_slice(&s[at..at + 7]);
    octets
}
