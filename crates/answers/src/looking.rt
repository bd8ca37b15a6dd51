// `show`: what the receiver holds, one line a thing.
ghost use Rattle.std.specs.Prelude.{◌≡◌};
ghost use Rattle.text.specs.Writer.{writing};
ghost use Rattle.answers.specs.Looking.{placed_text, next_text, seen_text, cache_text, last_text, entry_text, session_text, heard_so_far, sending_text, receiver_text};

use super::answer::{put_pair, put_segments};
use memory::cache::{Cache, Seen};
use memory::outgoing::Outgoing;
use memory::replay::{Entry, Last};
use memory::session::Session;
use receiver::state::Receiver;
use text::writer::Writer;

// `seq Q..`: each element's next SEQ.
fn put_next(next: [u32; node::addresses::ELEMENTS], elements: usize, w: &mut Writer)
    ensures { w.new ≡ writing (next_text next elements) w.old }
{
    let n = elements.min(next.len());
    w.put(b"seq");
    for seq in &next[..n] {
        w.number(b" ", *seq as u64, 6);
    }
    w.put(b"\n");
}

// `cache S:Q:I ..`: oldest first.
fn put_cache(cache: Cache, w: &mut Writer)
    ensures { w.new ≡ writing (cache_text cache) w.old }
{
    let (newer, older) = cache.entries.split_at(cache.next % memory::cache::ENTRIES);
    w.put(b"cache");
    put_entries(older, w);
    put_entries(newer, w);
    w.put(b"\n");
}

fn put_entries(entries: &[Seen], w: &mut Writer)
    ensures { w.new ≡ writing (placed_text (λ i e. seen_text e) 0 entries.now) w.old }
{
    for e in entries {
        put_seen(*e, w);
    }
}

// ` S:Q:I`, where the place is not empty.
fn put_seen(e: Seen, w: &mut Writer)
    ensures { w.new ≡ writing (seen_text e) w.old }
{
    if e.src == 0 {
        return;
    }
    w.number(b" ", e.src as u64, 4);
    w.number(b":", e.seq as u64, 6);
    w.number(b":", e.iv as u64, 8);
}

// ` last I Q segn N dst D`, where a segmented message is remembered.
fn put_last(last: Last, w: &mut Writer)
    ensures { w.new ≡ writing (last_text last) w.old }
{
    if last.dst == 0 {
        return;
    }
    w.number(b" last ", last.auth.iv as u64, 8);
    w.number(b" ", last.auth.seq as u64, 6);
    w.number(b" segn ", last.segn as u64, 1);
    w.number(b" dst ", last.dst as u64, 4);
}

// `replay S iv I seq Q` and what is remembered, where the place is not empty.
fn put_entry(e: Entry, w: &mut Writer)
    ensures { w.new ≡ writing (entry_text e) w.old }
{
    if e.src == 0 {
        return;
    }
    w.number(b"replay ", e.src as u64, 4);
    put_pair(e.pair, b" seq ", w);
    put_last(e.last, w);
    w.put(b"\n");
}

fn put_replay(replay: &[Entry], w: &mut Writer)
    ensures { w.new ≡ writing (placed_text (λ i e. entry_text e) 0 replay.now) w.old }
{
    for e in replay {
        put_entry(*e, w);
    }
}

// `session SLOT src S iv I auth Q bits B`, where the slot is not free.
fn put_session(slot: usize, s: Session, w: &mut Writer)
    ensures { w.new ≡ writing (session_text slot s) w.old }
{
    if s.src == 0 {
        return;
    }
    w.number(b"session ", slot as u64, 1);
    put_segments(s.src, s.auth, s.filled, w);
    w.put(b"\n");
}

fn put_sessions(sessions: &[Session], w: &mut Writer)
    ensures { w.new ≡ writing (placed_text session_text 0 sessions.now) w.old }
{
    for (slot, s) in sessions.iter().enumerate() {
        put_session(slot, *s, w);
    }
}

// ` segn N heard B` and a newline.
fn put_heard(segn: u8, heard: u32, w: &mut Writer)
    ensures { w.new ≡ writing (heard_so_far segn heard) w.old }
{
    w.number(b" segn ", segn as u64, 1);
    w.number(b" heard ", heard as u64, 8);
    w.put(b"\n");
}

// `sending dst D iv I auth Q segn N heard B`, where a message is kept.
fn put_sending(o: Outgoing, w: &mut Writer)
    ensures { w.new ≡ writing (sending_text o) w.old }
{
    if o.src == 0 {
        return;
    }
    w.number(b"sending dst ", o.terms.dst as u64, 4);
    put_pair(o.auth, b" auth ", w);
    put_heard(o.terms.segn, o.heard, w);
}

// All of it, and `end`.
#[tactic(auto, using(text::proofs::WriterLaws::writing_rules), unfolding(crate::specs::Looking::receiver_text))]
pub fn put_receiver(r: Receiver, w: &mut Writer)
    ensures { w.new ≡ writing (receiver_text r) w.old }
{
    put_next(r.next, r.node.elements, w);
    put_cache(r.cache, w);
    put_replay(&r.replay, w);
    put_sessions(&r.sessions, w);
    put_sending(r.out, w);
    w.put(b"end\n");
}
