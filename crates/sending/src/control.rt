// A control message is sent, whole or in segments.
ghost use Rattle.std.specs.Prelude.{◌≡◌, ◌<◌, ◌≤◌, length};
ghost use Rattle.common.specs.Lent.{lent};
ghost use Rattle.common.specs.Lists.{padded};
ghost use Rattle.transport.specs.Segment.{message_octets};
ghost use Rattle.node.specs.Addresses.{element_places};
ghost use Rattle.sending.specs.Control.{control_allowed, whole_header, outgoing_of, saying_control, sending_control};

use super::answer::Spoken;
use super::request::Request;
use super::transmission::Element;
use memory::outgoing::Outgoing;
use memory::pair::Pair;
use memory::session::Terms;
use network::header::Header;
use receiver::answer::Refusal;
use receiver::state::Receiver;

#[tactic(auto, unfolding(crate::specs::Control::control_allowed))]
fn is_allowed(r: Receiver, q: Request, opcode: u8, len: usize) -> bool
    ensures { result ≡ control_allowed r q opcode len }
{
    super::request::is_allowed(r.node, q)
        && super::request::to_address(q.dst)
        && 1 <= opcode
        && opcode <= 0x7F
        && len <= 256
        && (len <= 11 || r.out.src == 0)
}

// A control message that may be sent.
#[derive(Clone, Copy)]
struct Message<'a> {
    request: Request,
    opcode: u8,
    parameters: &'a [u8],
    ghost held: { request.element < element_places },
    ghost fits: { length parameters.now ≤ 256 },
}

impl Message<'_> {
    // Its header where it goes whole; SEQ and SRC are stamped on when it is sent.
    #[tactic(auto, using(crate::proofs::Octets::copied), unfolding(crate::specs::Control::whole_header))]
    fn whole_header(&self, iv: u32, dst: u16) -> Header
        requires { length self.now.parameters.now ≤ 11 }
        ensures { result ≡ whole_header iv self.now.request dst self.now.opcode self.now.parameters.now }
    {
        let q = self.request;
        let mut t = [0u8; 16];
        t[0] = transport::segment::control_octet(false, self.opcode);
        common::copy(self.parameters, &mut t[1..]);
        Header {
            key: q.network,
            iv,
            ctl: true,
            ttl: super::request::ttl_of(q.ttl),
            seq: 0,
            src: 0,
            dst,
            len: 1 + self.parameters.len(),
            transport: t,
        }
    }

    // The parameters as they are kept, with zeros behind them.
    fn kept(&self) -> [u8; transport::securing::MESSAGE]
        ensures { result ≡ padded message_octets self.now.parameters.now }
    {
        let mut bytes = [0u8; transport::securing::MESSAGE];
        common::copy(self.parameters, &mut bytes);
        bytes
    }

    // The segmented message that is kept.
    fn outgoing(&self, r: Receiver) -> Outgoing
        ensures { result ≡ outgoing_of r self.now.request self.now.opcode self.now.parameters.now }
    {
        let q = self.request;
        Outgoing {
            src: super::transmission::address_of(r.node, q.element),
            auth: Pair {
                iv: super::transmission::iv_of(r.node),
                seq: r.next[q.element],
            },
            terms: Terms {
                ctl: true,
                first: transport::segment::control_octet(true, self.opcode),
                szmic: false,
                segn: super::access::last_segment(true, self.parameters.len()),
                dst: super::request::dst_of(r.node, q.dst),
                key: q.network,
            },
            ttl: super::request::ttl_of(q.ttl),
            heard: 0,
            len: self.parameters.len(),
            bytes: self.kept(),
        }
    }

    // Sends it.
    #[tactic(auto, unfolding(crate::specs::Control::saying_control))]
    fn say(&self, r: Receiver, out: &mut [u8]) -> Spoken
        ensures { lent result out.new ≡ saying_control r self.now.request self.now.opcode self.now.parameters.now out.old }
    {
        let element = Element {
            place: self.request.element,
        };
        if self.parameters.len() <= 11 {
            let iv = super::transmission::iv_of(r.node);
            let dst = super::request::dst_of(r.node, self.request.dst);
            let h = self.whole_header(iv, dst);
            return super::answer::speak(super::transmission::transmit(r, element, h, out));
        }
        super::segment::start(r, element, self.outgoing(r), out)
    }
}

// Sends a control message; one that goes in segments is kept, and its segment 0 is sent.
#[tactic(auto, using(crate::proofs::Octets::element_within, crate::proofs::Octets::parameters_within), unfolding(crate::specs::Control::sending_control))]
pub fn send(r: Receiver, q: Request, opcode: u8, parameters: &[u8], out: &mut [u8]) -> Spoken
    ensures { lent result out.new ≡ sending_control r q opcode parameters.now out.old }
{
    if out.len() < network::header::PDU {
        return super::answer::refuse(r, Refusal::ShortBuffer);
    }
    if !is_allowed(r, q, opcode, parameters.len()) {
        return super::answer::refuse(r, Refusal::OutsideRules);
    }
    let message = Message {
        request: q,
        opcode,
        parameters,
    };
    message.say(r, out)
}
