// A segment of a longer message: stored, repeated, refused, or the last that was missing.
ghost use Rattle.std.specs.Prelude.{◌≡◌, ◌≤◌, length};
ghost use Rattle.common.specs.Lent.{lent};
ghost use Rattle.common.specs.Lists.{onto};
ghost use Rattle.transport.specs.Securing.{unsecuring};
ghost use Rattle.node.specs.Addresses.{held_by};
ghost use Rattle.transport.specs.Segment.{message_octets};
ghost use Rattle.receiver.specs.Segmented.{segment_of, session_envelope, message_of, upgraded, control_up, access_up, gathered, placed, segmented};

use super::answer::{Answer, Refusal, Taken};
use super::state::Receiver;
use super::whole::refuse;
use memory::decision::Decision;
use memory::pair::Pair;
use memory::replay::Last;
use memory::session::{Segment, Session, Terms};
use network::header::Header;
use node::addresses::Node;
use transport::form::SegmentFields;
use transport::securing::{Envelope, Held, Opened, Unopened};

// A segment as its header and form tell it.
fn segment_of(h: Header, fields: SegmentFields, auth: u32) -> Segment
    ensures { result ≡ segment_of h fields auth }
{
    let t = h.transport;
    Segment {
        auth: Pair {
            iv: h.iv,
            seq: auth,
        },
        terms: Terms {
            ctl: h.ctl,
            first: t[0],
            szmic: fields.szmic,
            segn: fields.segn,
            dst: h.dst,
            key: h.key,
        },
        sego: fields.sego,
    }
}

// The receiver after the message of a session was handed up.
#[tactic(auto, unfolding(crate::specs::Segmented::upgraded_by))]
fn hand_up(r: Receiver, s: Session) -> Receiver
    ensures { result ≡ upgraded r s }
{
    let last = Last {
        auth: s.auth,
        segn: s.terms.segn,
        dst: s.terms.dst,
    };
    r.with_replay(memory::replay::hand_up(r.replay, s.src, last))
}

// How many octets the message of a session has.
#[tactic(auto, unfolding(crate::specs::Segmented::message_of))]
fn octets(s: Session) -> usize
    ensures { result ≡ length (message_of s) }
{
    s.len.min(transport::securing::MESSAGE)
}

// Copies the message of a session to the message buffer, and gives its length.
#[tactic(auto, unfolding(crate::specs::Segmented::message_of))]
fn copy_message(s: Session, message: &mut [u8]) -> usize
    requires { message_octets ≤ length message.old }
    ensures { lent result message.new ≡ lent (length (message_of s)) (onto (message_of s) message.old) }
{
    let n = octets(s);
    common::copy(&s.bytes[..n], message);
    n
}

// A control message is handed up as it is.
#[tactic(auto, unfolding(crate::specs::Segmented::control_up_by))]
fn control_up(r: Receiver, s: Session, message: &mut [u8]) -> Taken
    requires { message_octets ≤ length message.old }
    ensures { lent result message.new ≡ control_up r s message.old }
{
    let len = copy_message(s, message);
    Taken {
        answer: Ok(Answer::Control {
            src: s.src,
            dst: s.terms.dst,
            network: s.terms.key,
            opcode: s.terms.first % 128,
            pair: s.auth,
            len,
        }),
        trials: 0,
        receiver: hand_up(r, s),
    }
}

// What the keys and the nonce of a session's message rest on.
fn envelope(s: Session) -> Envelope
    ensures { result ≡ session_envelope s }
{
    let terms = s.terms;
    let auth = s.auth;
    Envelope {
        network: terms.key,
        akf: 64 <= terms.first % 128,
        aid: terms.first % 64,
        szmic: terms.szmic,
        iv: auth.iv,
        seq: auth.seq,
        src: s.src,
        dst: terms.dst,
    }
}

// Opens the message of a session into the message buffer, by what a node holds.
#[tactic(auto, unfolding(crate::specs::Segmented::message_of))]
fn open_by(s: Session, held: Held, message: &mut [u8]) -> Result<Opened, Unopened>
    ensures { lent result message.new ≡ unsecuring held (session_envelope s) (message_of s) message.old }
{
    let n = octets(s);
    transport::securing::open(held, envelope(s), &s.bytes[..n], message)
}

// By what this node holds.
fn open(s: Session, node: Node, message: &mut [u8]) -> Result<Opened, Unopened>
    ensures { lent result message.new ≡ unsecuring (held_by node) (session_envelope s) (message_of s) message.old }
{
    open_by(s, node::addresses::held_by(node), message)
}

// An access message is opened by the keys and labels that fit.
#[tactic(auto, unfolding(crate::specs::Segmented::access_up_by, crate::specs::Segmented::access_up_as_by))]
fn access_up(r: Receiver, s: Session, message: &mut [u8]) -> Taken
    ensures { lent result message.new ≡ access_up r s message.old }
{
    match open(s, r.node, message) {
        Ok(o) => Taken {
            answer: Ok(Answer::Access {
                src: s.src,
                dst: s.terms.dst,
                network: s.terms.key,
                opener: o.opener,
                pair: s.auth,
                len: o.len,
            }),
            trials: o.trials,
            receiver: hand_up(r, s),
        },
        Err(Unopened::NotOpened { trials }) => refuse(r, Refusal::NotOpened, trials),
        Err(Unopened::ShortBuffer) => refuse(r, Refusal::ShortBuffer, 0),
    }
}

// The session in a slot with one segment more: kept, or complete, and the slot is freed.
#[tactic(auto, unfolding(crate::specs::Segmented::gathered_by))]
fn gather(r: Receiver, slot: usize, s: Session, message: &mut [u8]) -> Taken
    requires { message_octets ≤ length message.old }
    ensures { lent result message.new ≡ gathered r slot s message.old }
{
    if !memory::session::is_complete(s) {
        return Taken {
            answer: Ok(Answer::Stored {
                src: s.src,
                auth: s.auth,
                bits: s.filled,
            }),
            trials: 0,
            receiver: r.with_session(slot, s),
        };
    }
    let q = r.with_session(slot, memory::session::none());
    if s.terms.ctl {
        return control_up(q, s, message);
    }
    access_up(q, s, message)
}

// What becomes of a segment that has a SeqAuth.
#[tactic(auto, using(memory::proofs::Within::join_within), unfolding(crate::specs::Segmented::placed_by, crate::specs::Segmented::placed_as_by))]
fn place(r: Receiver, h: Header, seg: Segment, message: &mut [u8]) -> Taken
    requires { message_octets ≤ length message.old }
    ensures { lent result message.new ≡ placed r h seg message.old }
{
    match memory::decision::decide(r.replay, r.sessions, h.src, seg) {
        Err(refusal) => refuse(r, Refusal::from(refusal), 0),
        Ok(Decision::Repeat(bits)) => Taken {
            answer: Ok(Answer::Repeated {
                src: h.src,
                auth: seg.auth,
                bits,
            }),
            trials: 0,
            receiver: r,
        },
        Ok(Decision::Join(slot)) => {
            let s = memory::session::store(r.sessions[slot], h, seg.sego);
            gather(r, slot, s, message)
        }
        Ok(Decision::Open(slot)) => {
            let s = memory::session::begin(h.src, seg);
            gather(r, slot, memory::session::store(s, h, seg.sego), message)
        }
    }
}

// A segment: 8 where it has no SeqAuth.
#[tactic(auto, unfolding(crate::specs::Segmented::segmented_by, crate::specs::Segmented::segmented_as_by))]
pub(crate) fn segment(r: Receiver, h: Header, fields: SegmentFields, message: &mut [u8]) -> Taken
    requires { message_octets ≤ length message.old }
    ensures { lent result message.new ≡ segmented r h fields message.old }
{
    match transport::seq_auth::find(h.seq, fields.seqzero) {
        None => refuse(r, Refusal::NoSeqAuth, 0),
        Some(auth) => place(r, h, segment_of(h, fields, auth), message),
    }
}
