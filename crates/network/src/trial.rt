// One key tried on one PDU, and the candidate keys tried in order.
ghost use Rattle.std.specs.Prelude.{◌≡◌, ◌&&◌, ◌+◌, ◌*◌, ◌-◌, ◌≤◌, ltb, length, drop};
ghost use Rattle.common.specs.Lent.{lent};
ghost use Rattle.aes.specs.KeyExpansion.{key_schedule};
ghost use Rattle.modes.specs.Ccm.{mic_octets, opening};
ghost use Rattle.network.specs.Pdu.{pdu_octets, net_mic, front_of};
ghost use Rattle.network.specs.Trial.{ctl_of, seq_of, src_of, nonce_of, header_of, tried};
ghost use Rattle.network.specs.Candidates.{searched};

use super::header::Header;
use keys::NetworkKeys;

// What the candidates make of a PDU: the number of trials, and the header under the first that authenticates.
#[derive(Clone, Copy)]
pub struct Found {
    pub trials: usize,
    pub opened: Option<Header>,
}

// A PDU of 14 to 29 octets: no other is tried.
#[derive(Clone, Copy)]
pub(crate) struct Pdu<'a> {
    pub(crate) octets: &'a [u8],
    ghost sized: { (14 ≤ length octets.now) × (length octets.now ≤ pdu_octets) },
}

// What octets 1-6 say in clear.
fn ctl_of(front: [u8; 6]) -> bool
    ensures { result ≡ ctl_of front }
{
    128 <= front[0]
}

#[tactic(auto, unfolding(crate::specs::Octets::number, crate::specs::Octets::number_from))]
fn seq_of(front: [u8; 6]) -> u32
    ensures { result ≡ seq_of front }
{
    u32::from_be_bytes([0, front[1], front[2], front[3]])
}

#[tactic(auto, unfolding(crate::specs::Octets::number, crate::specs::Octets::number_from))]
fn src_of(front: [u8; 6]) -> u16
    ensures { result ≡ src_of front }
{
    u16::from_be_bytes([front[4], front[5]])
}

// The header of a clear front and a clear body.
fn header_of(place: usize, iv: u32, front: [u8; 6], body: &[u8]) -> Header
    requires { (2 ≤ length body.now) × (length body.now ≤ 18) }
    ensures { result ≡ header_of place iv front body.now }
{
    let mut transport = [0u8; 16];
    common::copy(&body[2..], &mut transport);
    Header {
        key: place,
        iv,
        ctl: ctl_of(front),
        ttl: front[0] % 128,
        seq: seq_of(front),
        src: src_of(front),
        dst: u16::from_be_bytes([body[0], body[1]]),
        len: body.len() - 2,
        transport,
    }
}

// The network nonce that a clear front gives.
#[tactic(auto, unfolding(crate::specs::Trial::nonce_of))]
fn nonce_of(iv: u32, front: [u8; 6]) -> [u8; 13]
    ensures { result ≡ nonce_of iv front }
{
    super::nonce::network(
        ctl_of(front),
        front[0] % 128,
        seq_of(front),
        src_of(front),
        iv,
    )
}

// How many octets of DST and transport a PDU of n octets has.
fn clear_len(ctl: bool, n: usize) -> usize
    requires { 7 + mic_octets (net_mic ctl) ≤ n }
    ensures { result ≡ n - 7 - mic_octets (net_mic ctl) }
{
    if ctl { n - 7 - 8 } else { n - 7 - 4 }
}

// Whether a PDU of n octets is too short for its CTL.
fn too_short(ctl: bool, n: usize) -> bool
    ensures { result ≡ ctl && ltb n 18 }
{
    ctl && n < 18
}

impl<'a> Pdu<'a> {
    // Its octets 1-6 in clear. They go on as an array beside the IV Index, which is that of all keys: a struct of both would be made anew
    // for each key.
    #[tactic(auto, using(crate::proofs::TrialLaws::taken), unfolding(crate::specs::Pdu::front_of))]
    fn front_of(&self, key: NetworkKeys, iv: u32) -> [u8; 6]
        ensures { result ≡ front_of key iv self.now.octets.now }
    {
        let pdu = self.octets;
        let front = [pdu[1], pdu[2], pdu[3], pdu[4], pdu[5], pdu[6]];
        super::pdu::obfuscate(key, iv, front, super::pdu::seven(pdu, 7))
    }

    // Opens its body into out, with the nonce that its clear front gives.
    fn open_body(&self, key: NetworkKeys, iv: u32, front: [u8; 6], out: &mut [u8]) -> bool
        ensures { lent result out.new ≡ opening (key_schedule key.encryption) (nonce_of iv front) (net_mic (ctl_of front)) (drop 7 self.now.octets.now) out.old }
    {
        let encryption = key.encryption;
        modes::ccm::open(
            aes::expand(encryption),
            nonce_of(iv, front),
            super::pdu::net_mic(ctl_of(front)),
            &self.octets[7..],
            out,
        )
    }

    // The key at a place of the list tried on it: its header, if it authenticates.
    fn try_key(&self, key: NetworkKeys, place: usize, iv: u32) -> Option<Header>
        ensures { result ≡ tried key place iv self.now.octets.now }
    {
        let front = self.front_of(key, iv);
        let ctl = ctl_of(front);
        if too_short(ctl, self.octets.len()) {
            return None;
        }
        let mut body = [0u8; 18];
        if !self.open_body(key, iv, front, &mut body) {
            return None;
        }
        let n = clear_len(ctl, self.octets.len());
        Some(header_of(place, iv, front, &body[..n]))
    }

    // The candidates are tried one by one, stopping at the first that authenticates.
    pub(crate) fn search(
        &self,
        held: [NetworkKeys; super::opening::KEYS],
        count: usize,
        nid: u8,
        iv: u32,
    ) -> Found
        ensures { result ≡ searched held count nid iv self.now.octets.now }
    {
        let mut i: usize = 0;
        let mut trials: usize = 0;
        // A loop that ends by break: document 01 names this form for the candidate keys.
        loop {
            if super::opening::KEYS <= i || count <= i {
                break Found {
                    trials,
                    opened: None,
                };
            }
            let key = held[i];
            if key.nid == nid {
                trials += 1;
                if let Some(header) = self.try_key(key, i, iv) {
                    break Found {
                        trials,
                        opened: Some(header),
                    };
                }
            }
            i += 1;
        }
    }
}
