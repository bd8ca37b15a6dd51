// What becomes of a segment: repeat, join, replace, open, or refusals 9 to 12, in their order.
ghost use Rattle.std.specs.Prelude.{◌≡◌};
ghost use Rattle.memory.specs.Decision.{joining, replacing, opening, decision};

use super::pair::Pair;
use super::replay::{ENTRIES, Entry, Last};
use super::session::{SLOTS, Segment, Session};

#[derive(Clone, Copy, PartialEq, Eq)]
pub enum Decision {
    // It has come before; the bits report the places filled.
    Repeat(u32),
    // It joins the session in this slot, and its place there is empty.
    Join(usize),
    // It opens a session in this slot.
    Open(usize),
}

#[derive(Clone, Copy, PartialEq, Eq)]
pub enum Refusal {
    // 9: the replay entry is not below its SeqAuth, or the open session is newer.
    Stale,
    // 10: it joins a session but differs in CTL, octet 0, SZMIC, SegN, DST or opening key.
    Differs,
    // 11: the source has no replay entry and all 32 are used.
    NoEntryLeft,
    // 12: eight other sources hold all slots.
    NoSlotLeft,
}

// It has the SeqAuth of its source's session.
#[tactic(auto, unfolding(crate::specs::Decision::joining))]
fn join(s: Session, own: usize, room: bool, seg: Segment) -> Result<Decision, Refusal>
    ensures { result ≡ joining s own room seg }
{
    if !super::session::same_terms(s.terms, seg.terms) {
        return Err(Refusal::Differs);
    }
    if !room {
        return Err(Refusal::NoEntryLeft);
    }
    if common::bits::has(s.filled, seg.sego as u32) {
        return Ok(Decision::Repeat(s.filled));
    }
    Ok(Decision::Join(own))
}

// Its source has a session of another SeqAuth.
#[tactic(auto, unfolding(crate::specs::Decision::replacing))]
fn replace(e: Entry, held: Pair, own: usize, room: bool, auth: Pair) -> Result<Decision, Refusal>
    ensures { result ≡ replacing e held own room auth }
{
    if super::replay::is_stale(e, auth) || super::pair::is_newer(held, auth) {
        return Err(Refusal::Stale);
    }
    if !room {
        return Err(Refusal::NoEntryLeft);
    }
    Ok(Decision::Open(own))
}

// Its source has no session.
#[tactic(auto, unfolding(crate::specs::Decision::opening))]
fn open(e: Entry, free: Option<usize>, room: bool, auth: Pair) -> Result<Decision, Refusal>
    ensures { result ≡ opening e free room auth }
{
    if super::replay::is_stale(e, auth) {
        return Err(Refusal::Stale);
    }
    if !room {
        return Err(Refusal::NoEntryLeft);
    }
    let slot = free.ok_or(Refusal::NoSlotLeft)?;
    Ok(Decision::Open(slot))
}

// What becomes of a segment of a source.
#[tactic(auto, unfolding(crate::specs::Decision::decision_by))]
pub fn decide(
    replay: [Entry; ENTRIES],
    sessions: [Session; SLOTS],
    src: u16,
    seg: Segment,
) -> Result<Decision, Refusal>
    ensures { result ≡ decision replay sessions src seg }
{
    let e = super::replay::look_up(replay, src);
    let whole = Last {
        auth: seg.auth,
        segn: seg.terms.segn,
        dst: seg.terms.dst,
    };
    if super::replay::is_last(e.last, whole) {
        return Ok(Decision::Repeat(common::bits::all(seg.terms.segn as u32)));
    }
    let room = super::replay::has_room(replay, src);
    let key = super::session::key_for(src, seg);
    let Some(own) = super::session::place(sessions, key) else {
        return open(e, super::session::free(sessions), room, seg.auth);
    };
    let s = sessions[own];
    if super::pair::same(s.auth, seg.auth) {
        return join(s, own, room, seg);
    }
    replace(e, s.auth, own, room, seg.auth)
}
