// The one outgoing segmented message: begun with its segment 0, and sent on segment by segment.
ghost use Rattle.std.specs.Option.{option_map};
ghost use Rattle.std.specs.Prelude.{◌≡◌, ◌+◌, ◌≤◌, ◌<◌, leb, length, get_or, take};
ghost use Rattle.common.specs.Lent.{lent};
ghost use Rattle.common.specs.Lists.{padded};
ghost use Rattle.transport.specs.Segment.{message_octets};
ghost use Rattle.sending.specs.Segment.{chunk_place, outgoing_chunk, segment_pdu, segment_header, element_of, segment_allowed, starting, sending_segment};

use super::answer::{Answer, Spoken};
use super::transmission::Element;
use memory::outgoing::Outgoing;
use network::header::Header;
use node::addresses::Node;
use receiver::answer::Refusal;
use receiver::state::Receiver;
use transport::form::SegmentFields;

// How many octets the message has; it is kept in 384.
fn message_len(o: Outgoing) -> usize
    ensures { (result ≡ length (take o.len o.bytes)) × (result ≤ message_octets) }
{
    o.len.min(transport::securing::MESSAGE)
}

// One segment of a message: SegO is a number of 5 bits.
#[derive(Clone, Copy)]
struct Segment {
    message: Outgoing,
    sego: u8,
    ghost within: { sego < 32 },
}

impl Segment {
    // Where its octets begin.
    fn place(self) -> usize
        ensures { (result ≡ chunk_place self.message.terms.ctl self.sego) × (result ≤ message_octets) }
    {
        self.sego as usize * transport::segment::full_octets(self.message.terms.ctl)
    }

    // Where its octets end.
    #[tactic(auto, unfolding(crate::specs::Segment::outgoing_chunk))]
    fn end(self) -> usize
        ensures { (result ≡ chunk_place self.message.terms.ctl self.sego + length (outgoing_chunk self.message self.sego)) × (result ≤ length self.message.bytes) }
    {
        let start = self.place();
        let full = start + transport::segment::full_octets(self.message.terms.ctl);
        message_len(self.message).clamp(start, full)
    }

    // How many octets its PDU has.
    #[tactic(auto, using(crate::proofs::Octets::pdu_length))]
    fn len(self) -> usize
        ensures { result ≡ length (segment_pdu self.message self.sego) }
    {
        4 + (self.end() - self.place())
    }

    // Its PDU, with zeros behind the end.
    fn pdu(self) -> [u8; 16]
        ensures { result ≡ padded 16 (segment_pdu self.message self.sego) }
    {
        let o = self.message;
        let fields = SegmentFields {
            szmic: o.terms.szmic,
            seqzero: (o.auth.seq % 8192) as u16,
            sego: self.sego,
            segn: o.terms.segn,
        };
        let front = transport::segment::front(o.terms.first, fields);
        let start = self.place();
        let end = self.end();
        let mut t = [0u8; 16];
        common::copy(&front, &mut t);
        common::copy(&o.bytes[start..end], &mut t[4..]);
        t
    }

    // Its header; SEQ and SRC are stamped on when it is sent.
    #[tactic(auto, unfolding(crate::specs::Segment::segment_header))]
    fn header(self) -> Header
        ensures { result ≡ segment_header self.message self.sego }
    {
        let o = self.message;
        Header {
            key: o.terms.key,
            iv: o.auth.iv,
            ctl: o.terms.ctl,
            ttl: o.ttl,
            seq: 0,
            src: 0,
            dst: o.terms.dst,
            len: self.len(),
            transport: self.pdu(),
        }
    }
}

// Begins a segmented message: segment 0 goes out, and the message is kept.
#[tactic(auto, unfolding(crate::specs::Segment::starting))]
pub(crate) fn start(r: Receiver, element: Element, o: Outgoing, out: &mut [u8]) -> Spoken
    ensures { lent result out.new ≡ starting r element.place o out.old }
{
    let first = Segment {
        message: o,
        sego: 0,
    };
    let t = super::transmission::transmit(r, element, first.header(), out);
    match t.sent {
        Ok(len) => Spoken {
            answer: Ok(Answer::Started {
                len,
                segn: o.terms.segn,
            }),
            receiver: t.receiver.with_outgoing(o),
        },
        Err(refusal) => super::answer::refuse(t.receiver, refusal),
    }
}

// The element that has an address, where one has.
#[tactic(auto, unfolding(crate::specs::Segment::element_of, node::specs::Addresses::is_local))]
pub(crate) fn element_of(node: Node, address: u16) -> Option<Element>
    ensures { option_map (λ element. element.place) result ≡ element_of node address }
{
    if !node::addresses::is_local(node, address) {
        return None;
    }
    Some(Element {
        place: (address - node.first) as usize,
    })
}

// Whether an element's next SEQ is at most 8,191 after a message's first.
fn is_near(next: [u32; node::addresses::ELEMENTS], element: Element, first: u32) -> bool
    ensures { result ≡ leb (get_or next element.place 0) (first + 8191) }
{
    next[element.place] as u64 <= first as u64 + 8191
}

// Whether a named segment of the kept message may be sent by an element.
#[tactic(auto, unfolding(crate::specs::Segment::segment_allowed))]
fn is_allowed(r: Receiver, element: Element, n: u8) -> bool
    ensures { result ≡ segment_allowed r element.place n }
{
    let o = r.out;
    o.src != 0
        && n <= o.terms.segn
        && n <= 31
        && !common::bits::has(o.heard, n as u32)
        && is_near(r.next, element, o.auth.seq)
}

// Sends one named segment of the message that is kept.
#[tactic(auto, unfolding(crate::specs::Segment::sending_segment, crate::specs::Segment::sending_segment_from, crate::specs::Segment::segment_allowed))]
pub fn send(r: Receiver, n: u8, out: &mut [u8]) -> Spoken
    ensures { lent result out.new ≡ sending_segment r n out.old }
{
    if out.len() < network::header::PDU {
        return super::answer::refuse(r, Refusal::ShortBuffer);
    }
    let Some(element) = element_of(r.node, r.out.src) else {
        return super::answer::refuse(r, Refusal::OutsideRules);
    };
    if !is_allowed(r, element, n) {
        return super::answer::refuse(r, Refusal::OutsideRules);
    }
    let segment = Segment {
        message: r.out,
        sego: n,
    };
    let t = super::transmission::transmit(r, element, segment.header(), out);
    super::answer::speak(t)
}
