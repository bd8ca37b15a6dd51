// A message that comes whole, in one PDU: access, control or acknowledgement. It must be newer than its source's replay entry.
ghost use Rattle.std.specs.Prelude.{◌≡◌, ◌+◌, ◌≤◌, length, drop};
ghost use Rattle.common.specs.Lent.{lent};
ghost use Rattle.common.specs.Lists.{onto};
ghost use Rattle.network.specs.Header.{transport_of};
ghost use Rattle.transport.specs.Securing.{unsecuring};
ghost use Rattle.node.specs.Addresses.{held_by};
ghost use Rattle.transport.specs.Segment.{message_octets};
ghost use Rattle.receiver.specs.Whole.{refused_at, pair_of, admission, admitted, whole_envelope, opened_whole, whole_access, whole_control_up, whole_control, acted, whole_acknowledgement};

use super::answer::{Answer, Refusal, Taken};
use super::state::Receiver;
use memory::pair::Pair;
use memory::replay::{ENTRIES, Entry};
use network::header::Header;
use node::addresses::Node;
use transport::securing::{Envelope, Opened, Unopened};

pub(crate) fn refuse(r: Receiver, refusal: Refusal, trials: usize) -> Taken
    ensures { result ≡ refused_at r refusal trials }
{
    Taken {
        answer: Err(refusal),
        trials,
        receiver: r,
    }
}

// The pair of a whole message.
fn pair_of(h: Header) -> Pair
    ensures { result ≡ pair_of h }
{
    Pair {
        iv: h.iv,
        seq: h.seq,
    }
}

// Whether a whole message may be accepted: 9 where the replay entry is newer or equal, 11 where the source has none and all 32 are used.
#[tactic(auto, unfolding(crate::specs::Whole::admission_by))]
fn admit(replay: [Entry; ENTRIES], h: Header) -> Result<(), Refusal>
    ensures { result ≡ admission replay h }
{
    if memory::replay::is_stale(memory::replay::look_up(replay, h.src), pair_of(h)) {
        return Err(Refusal::Replayed);
    }
    if !memory::replay::has_room(replay, h.src) {
        return Err(Refusal::NoEntryLeft);
    }
    Ok(())
}

// The receiver after it accepted a whole message.
#[tactic(auto, unfolding(crate::specs::Whole::admitted_by))]
fn accept(r: Receiver, h: Header) -> Receiver
    ensures { result ≡ admitted r h }
{
    r.with_replay(memory::replay::accept(r.replay, h.src, pair_of(h)))
}

// How far the octets behind octet 0 of a transport PDU go.
fn octets_end(h: Header) -> usize
    ensures { (result ≡ 1 + length (drop 1 (transport_of h))) × (result ≤ length h.transport) }
{
    h.len.clamp(1, 16)
}

// What the keys and the nonce of a whole access message rest on.
fn envelope(h: Header, akf: bool, aid: u8) -> Envelope
    ensures { result ≡ whole_envelope h akf aid }
{
    Envelope {
        network: h.key,
        akf,
        aid,
        szmic: false,
        iv: h.iv,
        seq: h.seq,
        src: h.src,
        dst: h.dst,
    }
}

// Opens a whole access message into the message buffer.
fn open(h: Header, node: Node, akf: bool, aid: u8, message: &mut [u8]) -> Result<Opened, Unopened>
    ensures { lent result message.new ≡ unsecuring (held_by node) (whole_envelope h akf aid) (drop 1 (transport_of h)) message.old }
{
    let t = h.transport;
    let n = octets_end(h);
    let e = envelope(h, akf, aid);
    transport::securing::open(node::addresses::held_by(node), e, &t[1..n], message)
}

// An access message that may be accepted.
#[tactic(auto, unfolding(crate::specs::Whole::opened_whole_by, crate::specs::Whole::opened_as_by))]
fn open_access(r: Receiver, h: Header, akf: bool, aid: u8, message: &mut [u8]) -> Taken
    ensures { lent result message.new ≡ opened_whole r h (unsecuring (held_by r.node) (whole_envelope h akf aid) (drop 1 (transport_of h)) message.old) }
{
    match open(h, r.node, akf, aid, message) {
        Ok(o) => Taken {
            answer: Ok(Answer::Access {
                src: h.src,
                dst: h.dst,
                network: h.key,
                opener: o.opener,
                pair: pair_of(h),
                len: o.len,
            }),
            trials: o.trials,
            receiver: accept(r, h),
        },
        Err(Unopened::NotOpened { trials }) => refuse(r, Refusal::NotOpened, trials),
        Err(Unopened::ShortBuffer) => refuse(r, Refusal::ShortBuffer, 0),
    }
}

// A whole access message. It is admitted as control messages and acknowledgements are; what follows goes with its own lent buffer, so no closure is handed on.
#[tactic(auto, unfolding(crate::specs::Whole::whole_access_by, crate::specs::Whole::unless))]
pub(crate) fn access(r: Receiver, h: Header, akf: bool, aid: u8, message: &mut [u8]) -> Taken
    ensures { lent result message.new ≡ whole_access r h akf aid message.old }
{
    match admit(r.replay, h) {
        Ok(()) => open_access(r, h, akf, aid, message),
        Err(refusal) => refuse(r, refusal, 0),
    }
}

// Copies the parameters of a control message to the message buffer, and gives their number.
fn copy_parameters(h: Header, message: &mut [u8]) -> usize
    requires { message_octets ≤ length message.old }
    ensures { lent result message.new ≡ lent (length (drop 1 (transport_of h))) (onto (drop 1 (transport_of h)) message.old) }
{
    let t = h.transport;
    let n = octets_end(h);
    common::copy(&t[1..n], message);
    n - 1
}

// A whole control message is handed up as it is.
#[tactic(auto, unfolding(crate::specs::Whole::whole_control_up_by))]
fn hand_up_control(r: Receiver, h: Header, opcode: u8, message: &mut [u8]) -> Taken
    requires { message_octets ≤ length message.old }
    ensures { lent result message.new ≡ whole_control_up r h opcode message.old }
{
    let len = copy_parameters(h, message);
    Taken {
        answer: Ok(Answer::Control {
            src: h.src,
            dst: h.dst,
            network: h.key,
            opcode,
            pair: pair_of(h),
            len,
        }),
        trials: 0,
        receiver: accept(r, h),
    }
}

// A whole control message.
#[tactic(auto, unfolding(crate::specs::Whole::whole_control_by, crate::specs::Whole::unless))]
pub(crate) fn control(r: Receiver, h: Header, opcode: u8, message: &mut [u8]) -> Taken
    requires { message_octets ≤ length message.old }
    ensures { lent result message.new ≡ whole_control r h opcode message.old }
{
    match admit(r.replay, h) {
        Ok(()) => hand_up_control(r, h, opcode, message),
        Err(refusal) => refuse(r, refusal, 0),
    }
}

// An acknowledgement that may be accepted acts on the outgoing message.
#[tactic(auto, unfolding(crate::specs::Whole::acted_by))]
fn act(r: Receiver, h: Header, obo: bool, seqzero: u16, bits: u32) -> Taken
    ensures { result ≡ acted r h obo seqzero bits }
{
    let a = memory::outgoing::acknowledge(r.out, h, obo, seqzero, bits);
    Taken {
        answer: Ok(Answer::Acknowledgement {
            src: h.src,
            bits,
            effect: a.effect,
        }),
        trials: 0,
        receiver: accept(r, h).with_outgoing(a.out),
    }
}

// An acknowledgement counts as unsegmented.
#[tactic(auto, unfolding(crate::specs::Whole::whole_acknowledgement_by, crate::specs::Whole::unless))]
pub(crate) fn acknowledgement(r: Receiver, h: Header, obo: bool, seqzero: u16, bits: u32) -> Taken
    ensures { result ≡ whole_acknowledgement r h obo seqzero bits }
{
    match admit(r.replay, h) {
        Ok(()) => act(r, h, obo, seqzero, bits),
        Err(refusal) => refuse(r, refusal, 0),
    }
}
