// Sealing one Network PDU, and forwarding one that was opened.
ghost use Rattle.std.specs.Prelude.{◌≡◌, ◌++◌, ◌∷◌, ◌+◌, ◌≤◌, length, take, drop, if◌then◌else◌};
ghost use Rattle.common.specs.Lent.{lent};
ghost use Rattle.common.specs.Lists.{onto};
ghost use Rattle.common.specs.Paper.{number_of};
ghost use Rattle.network.specs.Octets.{octets};
ghost use Rattle.network.specs.Pdu.{pdu_octets, first_octet, clear_front, obfuscated, body_of};
ghost use Rattle.network.specs.Sealing.{paper, most_transport, sealable, sealing, forwards, lowered, forwarding};

use super::header::Header;
use keys::NetworkKeys;

// Why a header is not sealed.
#[derive(Clone, Copy)]
pub enum Refusal {
    // 14: outside the rules.
    OutsideRules,
    // 16: the buffer is shorter than 29.
    ShortBuffer,
}

// Document 01's number of an answer; 0 where nothing is refused.
pub fn number(sealed: Result<usize, Refusal>) -> u32
    ensures { result ≡ number_of (paper sealed) }
{
    let Err(refusal) = sealed else {
        return 0;
    };
    match refusal {
        Refusal::OutsideRules => 14,
        Refusal::ShortBuffer => 16,
    }
}

fn most_transport(ctl: bool) -> usize
    ensures { result ≡ most_transport ctl }
{
    if ctl { 12 } else { 16 }
}

// Whether a header is within the rules for a key.
#[tactic(auto, unfolding(crate::specs::Sealing::sealable))]
fn may_seal(key: NetworkKeys, h: Header) -> bool
    ensures { result ≡ sealable key h }
{
    key.nid <= 127
        && h.ttl <= 127
        && h.seq <= 0xFFFFFF
        && super::address::allowed(h.ctl, h.src, h.dst)
        && 1 <= h.len
        && h.len <= most_transport(h.ctl)
}

// DST and all sixteen octets of transport.
#[tactic(auto, unfolding(crate::specs::Octets::octets))]
pub fn clear_body(h: Header) -> [u8; 18]
    ensures { result ≡ octets 2 h.dst ++ h.transport }
{
    let mut clear = [0; 18];
    clear[..2].copy_from_slice(&h.dst.to_be_bytes());
    clear[2..].copy_from_slice(&h.transport);
    clear
}

// Writes DST and transport, which clear begins with, encrypted, and the NetMIC to out from octet 7 on.
fn write_body(key: NetworkKeys, h: Header, clear: [u8; 18], out: &mut [u8])
    requires { (clear ≡ octets 2 h.dst ++ h.transport) × (h.len ≤ most_transport h.ctl) × (pdu_octets ≤ length out.old) }
    ensures { out.new ≡ take 7 out.old ++ onto (body_of key h) (drop 7 out.old) }
{
    let n = 2 + h.len;
    let nonce = super::nonce::network(h.ctl, h.ttl, h.seq, h.src, h.iv);
    let ks = aes::expand(key.encryption);
    let mic = super::pdu::net_mic(h.ctl);
    modes::ccm::seal(ks, nonce, mic, &clear[..n], &mut out[7..]);
}

// Octets 1-6 in clear.
#[tactic(auto, unfolding(crate::specs::Octets::octets, crate::specs::Pdu::clear_front))]
pub fn clear_front(h: Header) -> [u8; 6]
    ensures { result ≡ clear_front h }
{
    let seq = h.seq.to_be_bytes();
    let src = h.src.to_be_bytes();
    [
        super::nonce::ctl_ttl(h.ctl, h.ttl),
        seq[1],
        seq[2],
        seq[3],
        src[0],
        src[1],
    ]
}

#[tactic(auto, unfolding(crate::specs::Pdu::first_octet))]
fn first_octet(iv: u32, nid: u8) -> u8
    requires { nid ≤ 127 }
    ensures { result ≡ first_octet iv nid }
{
    (iv % 2 * 128) as u8 + nid
}

// Writes octets 0-6, which octets 7-13 hide.
fn write_front(key: NetworkKeys, h: Header, out: &mut [u8])
    requires { (key.nid ≤ 127) × (14 ≤ length out.old) }
    ensures { out.new ≡ onto (first_octet h.iv key.nid ∷ obfuscated key h.iv (clear_front h) (take 7 (drop 7 out.old))) out.old }
{
    let hidden = super::pdu::obfuscate(key, h.iv, clear_front(h), super::pdu::seven(out, 7));
    out[0] = first_octet(h.iv, key.nid);
    out[1..7].copy_from_slice(&hidden);
}

// How many octets a PDU with `len` octets of transport has.
fn pdu_len(ctl: bool, len: usize) -> usize
    requires { len ≤ 16 }
    ensures { result ≡ 9 + len + (if ctl then 8 else 4) }
{
    if ctl { 9 + len + 8 } else { 9 + len + 4 }
}

// Seals a header under a key into the first octets of out, and says how many the PDU has.
#[tactic(auto, unfolding(crate::specs::Sealing::sealing))]
pub fn seal(key: NetworkKeys, h: Header, out: &mut [u8]) -> Result<usize, Refusal>
    ensures { lent result out.new ≡ sealing key h out.old }
{
    if out.len() < super::header::PDU {
        return Err(Refusal::ShortBuffer);
    }
    if !may_seal(key, h) {
        return Err(Refusal::OutsideRules);
    }
    write_body(key, h, clear_body(h), out);
    write_front(key, h, out);
    Ok(pdu_len(h.ctl, h.len))
}

// Whether an opened PDU is forwarded; local says that its DST is a local unicast address.
#[tactic(auto, unfolding(crate::specs::Sealing::forwards))]
pub fn is_forwarded(relay: bool, local: bool, h: Header) -> bool
    ensures { result ≡ forwards relay local h }
{
    relay && 2 <= h.ttl && !local
}

// The header with TTL less 1; a TTL of 0 stays.
pub fn lower(h: Header) -> Header
    ensures { result ≡ lowered h }
{
    Header {
        ttl: h.ttl.saturating_sub(1),
        ..h
    }
}

// Seals an opened PDU again with TTL less 1, under the key that opened it and the same IV Index.
#[tactic(auto, unfolding(crate::specs::Sealing::forwarding))]
pub fn forward(
    held: [NetworkKeys; super::opening::KEYS],
    h: Header,
    out: &mut [u8],
) -> Result<usize, Refusal>
    ensures { lent result out.new ≡ forwarding held h out.old }
{
    if out.len() < super::header::PDU {
        return Err(Refusal::ShortBuffer);
    }
    if super::opening::KEYS <= h.key {
        return Err(Refusal::OutsideRules);
    }
    seal(held[h.key], lower(h), out)
}
