// Acknowledging the segments of a source: those of its open session, else of its last segmented message handed up.
ghost use Rattle.std.specs.Prelude.{◌≡◌, ◌<◌};
ghost use Rattle.common.specs.Lent.{lent};
ghost use Rattle.sending.specs.Acknowledge.{chosen, acknowledgement_header, saying_acknowledgement, acknowledging};

use super::answer::Spoken;
use super::transmission::Element;
use memory::pair::Pair;
use memory::replay::{ENTRIES, Entry};
use memory::session::{SLOTS, Session, SessionKey};
use network::header::Header;
use receiver::answer::Refusal;
use receiver::state::Receiver;

// The message that is acknowledged.
#[derive(Clone, Copy)]
pub struct Chosen {
    pub auth: Pair,
    pub dst: u16,
    // Bits 0 to SegN report places filled.
    pub bits: u32,
}

// The open session of a source, else its last segmented message handed up.
#[tactic(auto, unfolding(crate::specs::Acknowledge::chosen_by))]
fn choose(replay: [Entry; ENTRIES], sessions: [Session; SLOTS], src: u16) -> Option<Chosen>
    ensures { result ≡ chosen replay sessions src }
{
    if src == 0 {
        return None;
    }
    if let Some(i) = memory::session::place(sessions, SessionKey { src }) {
        let s = sessions[i];
        return Some(Chosen {
            auth: s.auth,
            dst: s.terms.dst,
            bits: s.filled,
        });
    }
    let last = memory::replay::look_up(replay, src).last;
    if last.dst == 0 {
        return None;
    }
    Some(Chosen {
        auth: last.auth,
        dst: last.dst,
        bits: common::bits::all(last.segn as u32),
    })
}

// The header of the acknowledgement; its SEQ and SRC are stamped on when it is sent.
#[tactic(auto, using(crate::proofs::Octets::copied), unfolding(crate::specs::Acknowledge::acknowledgement_header))]
fn header(iv: u32, network: usize, src: u16, c: Chosen) -> Header
    ensures { result ≡ acknowledgement_header iv network src c }
{
    let octets = transport::segment::acknowledgement(false, (c.auth.seq % 8192) as u16, c.bits);
    let mut t = [0u8; 16];
    common::copy(&octets, &mut t);
    Header {
        key: network,
        iv,
        ctl: true,
        ttl: super::request::ttl_of(None),
        seq: 0,
        src: 0,
        dst: src,
        len: 7,
        transport: t,
    }
}

// An element sends the acknowledgement.
#[tactic(auto, unfolding(crate::specs::Acknowledge::saying_acknowledgement))]
fn say(r: Receiver, element: Element, network: usize, src: u16, c: Chosen, out: &mut [u8]) -> Spoken
    ensures { lent result out.new ≡ saying_acknowledgement r element.place network src c out.old }
{
    let h = header(super::transmission::iv_of(r.node), network, src, c);
    super::answer::speak(super::transmission::transmit(r, element, h, out))
}

// Acknowledges a source over a named network key.
#[tactic(auto, unfolding(crate::specs::Acknowledge::acknowledging_by, crate::specs::Acknowledge::acknowledging_as, crate::specs::Acknowledge::acknowledging_from))]
pub fn send(r: Receiver, network: usize, src: u16, out: &mut [u8]) -> Spoken
    ensures { lent result out.new ≡ acknowledging r network src out.old }
{
    if out.len() < network::header::PDU {
        return super::answer::refuse(r, Refusal::ShortBuffer);
    }
    if r.node.networks.min(network::opening::KEYS) <= network {
        return super::answer::refuse(r, Refusal::OutsideRules);
    }
    let Some(c) = choose(r.replay, r.sessions, src) else {
        return super::answer::refuse(r, Refusal::OutsideRules);
    };
    if !network::address::is_unicast(c.dst) {
        return super::answer::refuse(r, Refusal::OutsideRules);
    }
    match super::segment::element_of(r.node, c.dst) {
        Some(element) => say(r, element, network, src, c, out),
        None => super::answer::refuse(r, Refusal::OutsideRules),
    }
}
