// An access message is secured and sent, whole or in segments.
ghost use Rattle.std.specs.Prelude.{false, ◌≡◌, ◌+◌, ◌*◌, ◌<◌, ◌≤◌, length};
ghost use Rattle.common.specs.Lent.{lent};
ghost use Rattle.common.specs.Lists.{padded};
ghost use Rattle.modes.specs.Ccm.{mic_octets, longest_data};
ghost use Rattle.transport.specs.Securing.{trans_mic, secured, securing};
ghost use Rattle.transport.specs.Segment.{message_octets, full_octets, last_segment};
ghost use Rattle.node.specs.Addresses.{element_places};
ghost use Rattle.sending.specs.Request.{additional_for};
ghost use Rattle.sending.specs.Access.{keyed, key_allowed, is_whole, size_allowed, access_allowed, envelope_of, whole_pdu, whole_header, outgoing_of, saying_access, sending_access};

use super::answer::Spoken;
use super::request::{Destination, Request};
use super::transmission::Element;
use memory::outgoing::Outgoing;
use memory::pair::Pair;
use memory::session::Terms;
use network::header::Header;
use node::addresses::Node;
use receiver::answer::Refusal;
use receiver::state::Receiver;
use transport::securing::{Envelope, MessageKey};

// The key that secures a message, and what octet 0 and the nonce say of it.
#[derive(Clone, Copy)]
pub struct KeyUsed {
    pub akf: bool,
    pub aid: u8,
    pub key: [u8; 16],
}

// The key that a request names.
fn key_used(node: Node, key: MessageKey) -> KeyUsed
    ensures { result ≡ keyed node key }
{
    match key {
        MessageKey::Application(i) => match node.appkeys.get(i) {
            Some(s) => KeyUsed {
                akf: true,
                aid: s.aid,
                key: s.key,
            },
            None => KeyUsed {
                akf: true,
                aid: 0,
                key: [0u8; 16],
            },
        },
        MessageKey::Device => KeyUsed {
            akf: false,
            aid: 0,
            key: node.device,
        },
    }
}

// An application key must be bound to the network key; the device key needs a unicast address.
fn key_allowed(node: Node, q: Request, key: MessageKey) -> bool
    ensures { result ≡ key_allowed node q key }
{
    match key {
        MessageKey::Application(i) => {
            i < node.applications.min(transport::securing::KEYS)
                && node.appkeys[i].bound == q.network
        }
        MessageKey::Device => super::request::to_unicast(q.dst),
    }
}

// Whether a payload goes in one PDU.
#[tactic(auto, unfolding(crate::specs::Access::is_whole))]
fn is_whole(szmic: bool, len: usize) -> bool
    ensures { result ≡ is_whole szmic len }
{
    !szmic && len <= 11
}

// At most 380 octets, or 376 with the 8-octet TransMIC.
#[tactic(auto, unfolding(crate::specs::Access::size_allowed))]
fn size_allowed(szmic: bool, len: usize) -> bool
    ensures { result ≡ size_allowed szmic len }
{
    1 <= len && len <= if szmic { 376 } else { 380 }
}

#[tactic(auto, unfolding(crate::specs::Access::access_allowed))]
fn is_allowed(r: Receiver, q: Request, key: MessageKey, szmic: bool, len: usize) -> bool
    ensures { result ≡ access_allowed r q key szmic len }
{
    super::request::is_allowed(r.node, q)
        && key_allowed(r.node, q, key)
        && size_allowed(szmic, len)
        && (is_whole(szmic, len) || r.out.src == 0)
}

// What the nonce of the message rests on: the SEQ is the element's next.
#[tactic(auto, unfolding(crate::specs::Access::envelope_of))]
fn envelope(r: Receiver, q: Request, k: KeyUsed, szmic: bool) -> Envelope
    requires { q.element < element_places }
    ensures { result ≡ envelope_of r q k szmic }
{
    Envelope {
        network: q.network,
        akf: k.akf,
        aid: k.aid,
        szmic,
        iv: super::transmission::iv_of(r.node),
        seq: r.next[q.element],
        src: super::transmission::address_of(r.node, q.element),
        dst: super::request::dst_of(r.node, q.dst),
    }
}

// Secures a payload to a destination: to a label with its octets as additional data, to an address with none.
fn secure_to(
    node: Node,
    d: Destination,
    key: [u8; 16],
    e: Envelope,
    payload: &[u8],
    out: &mut [u8],
) -> bool
    ensures { (lent result out.new ≡ securing key e (additional_for node d) payload.now out.old) × (length (additional_for node d) ≤ longest_data) }
{
    match d {
        Destination::Address(_) => transport::securing::secure(key, e, &[], payload, out),
        Destination::Label(j) => match node.labels.get(j) {
            Some(l) => transport::securing::secure(key, e, &l.octets, payload, out),
            None => transport::securing::secure(key, e, &[], payload, out),
        },
    }
}

// SegN of a message of so many octets.
#[tactic(auto, using(crate::proofs::Octets::last_segment_is, crate::proofs::Octets::last_segment_low))]
pub(crate) fn last_segment(ctl: bool, len: usize) -> u8
    requires { len ≤ 32 * full_octets ctl }
    ensures { result ≡ last_segment (full_octets ctl) len }
{
    (len.saturating_sub(1) / transport::segment::full_octets(ctl)) as u8
}

// How many octets a payload has with its TransMIC.
fn secured_len(szmic: bool, len: usize) -> usize
    requires { len ≤ 380 }
    ensures { result ≡ len + mic_octets (trans_mic szmic) }
{
    if szmic { len + 8 } else { len + 4 }
}

// An access message that may be sent, with what secures it.
#[derive(Clone, Copy)]
struct Message<'a> {
    request: Request,
    key: KeyUsed,
    envelope: Envelope,
    payload: &'a [u8],
    ghost fits: { length payload.now + mic_octets (trans_mic envelope.szmic) ≤ message_octets },
}

impl Message<'_> {
    // Its octets where it goes whole, with zeros behind them.
    fn whole_pdu(&self, node: Node) -> [u8; 16]
        requires { (self.now.envelope.szmic ≡ false) × (length self.now.payload.now ≤ 11) }
        ensures { result ≡ padded 16 (whole_pdu self.now.envelope self.now.key (additional_for node self.now.request.dst) self.now.payload.now) }
    {
        let k = self.key;
        let mut t = [0u8; 16];
        t[0] = transport::segment::access_octet(false, k.akf, k.aid);
        secure_to(
            node,
            self.request.dst,
            k.key,
            self.envelope,
            self.payload,
            &mut t[1..],
        );
        t
    }

    // Its header where it goes whole; SEQ and SRC are stamped on when it is sent.
    #[tactic(auto, using(crate::proofs::Secured::whole_length), unfolding(crate::specs::Access::whole_header))]
    fn whole_header(&self, node: Node) -> Header
        requires { (self.now.envelope.szmic ≡ false) × (length self.now.payload.now ≤ 11) }
        ensures { result ≡ whole_header self.now.envelope self.now.request self.now.key (additional_for node self.now.request.dst) self.now.payload.now }
    {
        let q = self.request;
        let e = self.envelope;
        Header {
            key: q.network,
            iv: e.iv,
            ctl: false,
            ttl: super::request::ttl_of(q.ttl),
            seq: 0,
            src: 0,
            dst: e.dst,
            len: 5 + self.payload.len(),
            transport: self.whole_pdu(node),
        }
    }

    // The secured message as it is kept, with zeros behind it.
    fn kept(&self, node: Node) -> [u8; transport::securing::MESSAGE]
        ensures { result ≡ padded message_octets (secured self.now.key.key self.now.envelope (additional_for node self.now.request.dst) self.now.payload.now) }
    {
        let mut bytes = [0u8; transport::securing::MESSAGE];
        secure_to(
            node,
            self.request.dst,
            self.key.key,
            self.envelope,
            self.payload,
            &mut bytes,
        );
        bytes
    }

    // The segmented message that is kept.
    fn outgoing(&self, node: Node) -> Outgoing
        ensures { result ≡ outgoing_of self.now.envelope self.now.request self.now.key (additional_for node self.now.request.dst) self.now.payload.now }
    {
        let q = self.request;
        let k = self.key;
        let e = self.envelope;
        let len = secured_len(e.szmic, self.payload.len());
        Outgoing {
            src: e.src,
            auth: Pair {
                iv: e.iv,
                seq: e.seq,
            },
            terms: Terms {
                ctl: false,
                first: transport::segment::access_octet(true, k.akf, k.aid),
                szmic: e.szmic,
                segn: last_segment(false, len),
                dst: e.dst,
                key: q.network,
            },
            ttl: super::request::ttl_of(q.ttl),
            heard: 0,
            len,
            bytes: self.kept(node),
        }
    }
}

// Sends an access message that may be sent. What is asked comes one by one, as `send` takes it: a struct of it would be made there and taken apart here.
#[tactic(auto, unfolding(crate::specs::Access::saying_access, crate::specs::Access::is_whole, crate::specs::Access::envelope_of))]
fn say(
    r: Receiver,
    q: Request,
    key: MessageKey,
    szmic: bool,
    payload: &[u8],
    out: &mut [u8],
) -> Spoken
    requires { (q.element < element_places) × (length payload.now + mic_octets (trans_mic szmic) ≤ message_octets) }
    ensures { lent result out.new ≡ saying_access r q key szmic payload.now out.old }
{
    let element = Element { place: q.element };
    let k = key_used(r.node, key);
    let message = Message {
        request: q,
        key: k,
        envelope: envelope(r, q, k, szmic),
        payload,
    };
    if is_whole(szmic, payload.len()) {
        let h = message.whole_header(r.node);
        return super::answer::speak(super::transmission::transmit(r, element, h, out));
    }
    super::segment::start(r, element, message.outgoing(r.node), out)
}

// Sends an access message; one that goes in segments is kept, and its segment 0 is sent.
#[tactic(auto, using(crate::proofs::Secured::element_within, crate::proofs::Secured::secured_within), unfolding(crate::specs::Access::sending_access))]
pub fn send(
    r: Receiver,
    q: Request,
    key: MessageKey,
    szmic: bool,
    payload: &[u8],
    out: &mut [u8],
) -> Spoken
    ensures { lent result out.new ≡ sending_access r q key szmic payload.now out.old }
{
    if out.len() < network::header::PDU {
        return super::answer::refuse(r, Refusal::ShortBuffer);
    }
    if !is_allowed(r, q, key, szmic, payload.len()) {
        return super::answer::refuse(r, Refusal::OutsideRules);
    }
    say(r, q, key, szmic, payload, out)
}
