// The C radio firmware's functions: the credential of a network key, opening and sealing one Network PDU, on plain numbers and byte
// buffers. None keeps state.
#![tactic(auto)]

mod clear_pdu;
mod credential;

ghost use Rattle.std.specs.Prelude.{◌≡◌, ◌≤◌};
ghost use Rattle.common.specs.Lent.{lent};
ghost use Rattle.radio.specs.Credential.{credentials_done};
ghost use Rattle.radio.specs.Open.{packed, open_done};
ghost use Rattle.network.specs.Sealing.{sealed_length};
ghost use Rattle.network.specs.Pdu.{pdu_octets};
ghost use Rattle.radio.specs.Seal.{seal_number, seal_done};

use network::header::Header;
use network::sealing::Refusal;

// 0, and out's first 33 octets are the credential of the key; 14, and out stays, where key is not 16 octets or out is shorter than 33.
#[tactic(auto, unfolding(crate::specs::Credential::credentials_done))]
pub fn gorephan_credentials(key: &[u8], out: &mut [u8]) -> u32
    ensures { lent result out.new ≡ credentials_done key.now out.old }
{
    if key.len() != 16 {
        return 14;
    }
    if out.len() < 33 {
        return 14;
    }
    let c = credential::octets_of(keys::k2(credential::sixteen(key, 0)));
    common::copy(&c, out);
    0
}

// Refusal, trials, octets written and place in one number.
fn pack(refusal: u32, trials: usize, octets: usize, place: usize) -> u32
    requires { (refusal ≤ 16) × (trials ≤ 4) × (octets ≤ pdu_octets) × (place ≤ 3) }
    ensures { result ≡ packed refusal trials octets place }
{
    refusal + 256 * (trials as u32) + 65536 * (octets as u32) + 0x1000000 * (place as u32)
}

// Opens a PDU under the first of four credentials that authenticates it, and writes it in clear, without NetMIC.
pub fn gorephan_open(credentials: &[u8], iv: u32, pdu: &[u8], out: &mut [u8]) -> u32
    ensures { lent result out.new ≡ open_done credentials.now iv pdu.now out.old }
{
    if out.len() < network::header::PDU {
        return 16;
    }
    if pdu.len() < 14 {
        return 1;
    }
    if network::header::PDU < pdu.len() {
        return 1;
    }
    if credential::foreign(credentials, pdu[0] % 128) {
        return 2;
    }
    let held = credential::pieces(credentials);
    let count = credential::piece_count(credentials);
    let o = network::opening::open(held, count, iv, pdu);
    match o.opened {
        Ok(h) => {
            let n = clear_pdu::write(common::octet(pdu, 0), h, out);
            pack(0, o.trials, n, h.key)
        }
        Err(refusal) => pack(network::opening::number(Err(refusal)), o.trials, 0, 0),
    }
}

// Refusal and length in one number.
#[tactic(auto, unfolding(crate::specs::Seal::seal_number))]
fn seal_number(sealed: Result<usize, Refusal>) -> u32
    requires { sealed_length sealed ≤ pdu_octets }
    ensures { result ≡ seal_number sealed }
{
    match sealed {
        Ok(len) => 65536 * (len as u32),
        Err(_) => network::sealing::number(sealed),
    }
}

// Seals what the numbers and the transport say under one credential into out's first octets.
#[tactic(auto, unfolding(crate::specs::Seal::seal_done))]
pub fn gorephan_seal(
    credential: &[u8],
    iv: u32,
    ctl: u8,
    ttl: u8,
    seq: u32,
    src: u16,
    dst: u16,
    transport: &[u8],
    out: &mut [u8],
) -> u32
    ensures { lent result out.new ≡ seal_done credential.now iv ctl ttl seq src dst transport.now out.old }
{
    if out.len() < network::header::PDU {
        return 16;
    }
    if credential.len() != 33 {
        return 14;
    }
    if 1 < ctl {
        return 14;
    }
    let h = Header {
        key: 0,
        iv,
        ctl: ctl == 1,
        ttl,
        seq,
        src,
        dst,
        len: transport.len(),
        transport: credential::sixteen(transport, 0),
    };
    seal_number(network::sealing::seal(credential::piece(credential, 0), h, out))
}
