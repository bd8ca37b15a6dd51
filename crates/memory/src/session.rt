// A session gathers the segments of one message of one source.
ghost use Rattle.std.specs.Prelude.{◌≡◌, ◌++◌, ◌+◌, ◌≤◌, length, take, drop};
ghost use Rattle.common.specs.Lists.{onto};
ghost use Rattle.memory.specs.Session.{no_session, segment_key, session_slot, free_slot, same_terms, begun, octet_place, segment_octets, length_with, stored, complete};

use super::pair::Pair;
use network::header::Header;

// How many slots there are.
pub const SLOTS: usize = 8;

// The most octets that a message has.
pub const MESSAGE: usize = transport::securing::MESSAGE;

// What all segments of a message share: a segment that joins a session may differ in none of it.
#[derive(Clone, Copy, PartialEq, Eq)]
pub struct Terms {
    pub ctl: bool,
    // Octet 0 of the transport PDU: SEG, then AKF and AID, or the opcode.
    pub first: u8,
    pub szmic: bool,
    pub segn: u8,
    pub dst: u16,
    // The place of the opening network key.
    pub key: usize,
}

// One segment, as its header and transport form tell it.
#[derive(Clone, Copy)]
pub struct Segment {
    // SeqAuth.
    pub auth: Pair,
    pub terms: Terms,
    pub sego: u8,
}

// What a session is found by.
#[derive(Clone, Copy)]
pub struct SessionKey {
    pub src: u16,
}

// SRC 0 marks a free slot. It is no Option: a caller may pass a slot with SRC 0 and anything beside it, and what is promised holds of that too.
#[derive(Clone, Copy)]
pub struct Session {
    pub src: u16,
    pub auth: Pair,
    pub terms: Terms,
    // Bit SegO is set where that segment has come.
    pub filled: u32,
    // How many octets the whole message has, known when its last segment has come. It stands beside them, as there is no heap.
    pub len: usize,
    pub bytes: [u8; MESSAGE],
}

// No terms: zeros.
pub(crate) const NO_TERMS: Terms = Terms {
    ctl: false,
    first: 0,
    szmic: false,
    segn: 0,
    dst: 0,
    key: 0,
};

// A free slot: zeros.
pub fn none() -> Session
    ensures { result ≡ no_session }
{
    Session {
        src: 0,
        auth: Pair { iv: 0, seq: 0 },
        terms: NO_TERMS,
        filled: 0,
        len: 0,
        bytes: [0u8; MESSAGE],
    }
}

// The key of the session that a segment of a source is for.
pub(crate) fn key_for(src: u16, seg: Segment) -> SessionKey
    ensures { result ≡ segment_key src seg }
{
    SessionKey { src }
}

// The slot of the session with this key.
pub fn place(sessions: [Session; SLOTS], key: SessionKey) -> Option<usize>
    ensures { result ≡ session_slot sessions key }
{
    sessions.iter().position(|s| s.src == key.src)
}

// The lowest free slot.
pub(crate) fn free(sessions: [Session; SLOTS]) -> Option<usize>
    ensures { result ≡ free_slot sessions }
{
    sessions.iter().position(|s| s.src == 0)
}

// Whether two segments share what those of one message do.
#[tactic(auto, unfolding(crate::specs::Session::same_terms))]
pub fn same_terms(a: Terms, b: Terms) -> bool
    ensures { result ≡ same_terms a b }
{
    a == b
}

// A session with nothing stored yet: every octet is zero.
pub fn begin(src: u16, seg: Segment) -> Session
    ensures { result ≡ begun src seg }
{
    Session {
        src,
        auth: seg.auth,
        terms: seg.terms,
        ..none()
    }
}

// Where the octets of segment SegO begin.
#[tactic(auto, unfolding(crate::specs::Session::octet_place))]
fn octet_place(ctl: bool, sego: u8) -> usize
    ensures { result ≡ octet_place ctl sego }
{
    (sego % 32) as usize * transport::segment::full_octets(ctl)
}

// How far the octets of a segment go in its transport PDU; they begin at 4.
fn octets_end(transport: [u8; 16], len: usize) -> usize
    ensures exact { result ≡ 4 + length (drop 4 (take len transport)) }
    ensures within { result ≤ 16 }
{
    len.clamp(4, 16)
}

// The message's octets with those of a segment in their place.
fn put_octets(bytes: [u8; MESSAGE], at: usize, h: Header) -> [u8; MESSAGE]
    requires { at ≤ 372 }
    ensures { result ≡ take at bytes ++ onto (segment_octets h) (drop at bytes) }
{
    let mut after = bytes;
    let n = octets_end(h.transport, h.len);
    common::copy(&h.transport[4..n], &mut after[at..]);
    after
}

// The message's length, which its last segment tells.
fn len_with(s: Session, h: Header, sego: u8) -> usize
    ensures { result ≡ length_with s h sego }
{
    if sego == s.terms.segn {
        return octet_place(s.terms.ctl, sego) + (octets_end(h.transport, h.len) - 4);
    }
    s.len
}

// The session with a segment stored in its place.
pub fn store(s: Session, h: Header, sego: u8) -> Session
    ensures { result ≡ stored s h sego }
{
    Session {
        filled: common::bits::with(s.filled, sego as u32),
        len: len_with(s, h, sego),
        bytes: put_octets(s.bytes, octet_place(s.terms.ctl, sego), h),
        ..s
    }
}

// Whether no segment is missing.
#[tactic(auto, unfolding(crate::specs::Session::complete))]
pub fn is_complete(s: Session) -> bool
    ensures { result ≡ complete s }
{
    s.filled == common::bits::all(s.terms.segn as u32)
}
