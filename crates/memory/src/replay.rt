// The replay list: of each source the newest pair accepted, and its last segmented message handed up. It is in ascending order of source, empty places
// last, and a source is found by halving.
ghost use Rattle.std.specs.Prelude.{◌≡◌, ◌<◌};
ghost use Rattle.common.specs.Lists.{tab};
ghost use Rattle.memory.specs.Replay.{replay_entries, no_entry, before, standing, look_up, has_room, shifted_at, inserted, stale, raised, is_last, accepted, handed_up};

use super::pair::Pair;

// How many entries there are.
pub const ENTRIES: usize = 32;

// The last segmented message of a source that was handed up; DST 0 marks that there is none. It is no Option, as an entry is none.
#[derive(Clone, Copy, PartialEq, Eq)]
pub struct Last {
    pub auth: Pair,
    pub segn: u8,
    pub dst: u16,
}

// A replay entry; SRC 0 marks an empty place. It is no Option: a list that a caller passes may hold anything beside SRC 0, and what is promised holds of
// that too.
#[derive(Clone, Copy)]
pub struct Entry {
    pub src: u16,
    pub pair: Pair,
    pub last: Last,
}

// An empty place.
pub fn none() -> Entry
    ensures { result ≡ no_entry }
{
    Entry {
        src: 0,
        pair: Pair { iv: 0, seq: 0 },
        last: Last {
            auth: Pair { iv: 0, seq: 0 },
            segn: 0,
            dst: 0,
        },
    }
}

// Whether an entry stands before a source; an empty place stands behind all.
#[tactic(auto, unfolding(crate::specs::Replay::before))]
fn is_before(e: Entry, src: u16) -> bool
    ensures { result ≡ before src e }
{
    e.src != 0 && e.src < src
}

// A place, and what stands there; nothing stands behind the last.
#[derive(Clone, Copy)]
struct Place {
    at: usize,
    held: Entry,
}

// Where a source's entry stands, or would stand. At most six places are looked at. A loop of its own: what is promised holds of any list, and of one that is
// not in order the library's `partition_point` promises nothing.
fn find(replay: [Entry; ENTRIES], src: u16) -> Place
    ensures { result ≡ standing replay src }
{
    let mut low: usize = 0;
    let mut high: usize = ENTRIES;
    while low < high {
        let mid = (low + high) / 2;
        if is_before(replay[mid], src) {
            low = mid + 1;
        } else {
            high = mid;
        }
    }
    if low < ENTRIES {
        let held = replay[low];
        return Place { at: low, held };
    }
    Place {
        at: low,
        held: none(),
    }
}

// A source's entry, or an empty one.
#[tactic(auto, unfolding(crate::specs::Replay::look_up, crate::specs::Replay::is_listed))]
pub fn look_up(replay: [Entry; ENTRIES], src: u16) -> Entry
    ensures { result ≡ look_up replay src }
{
    let e = find(replay, src).held;
    if e.src == src {
        return e;
    }
    none()
}

// Whether the entry is as new as a pair, or newer.
#[tactic(auto, unfolding(crate::specs::Replay::stale))]
pub fn is_stale(e: Entry, pair: Pair) -> bool
    ensures { result ≡ stale e pair }
{
    e.src != 0 && !super::pair::is_newer(pair, e.pair)
}

// Whether the source has an entry, or there is a place for one.
#[tactic(auto, unfolding(crate::specs::Replay::has_room, crate::specs::Replay::is_listed, crate::specs::Replay::last_free))]
pub fn has_room(replay: [Entry; ENTRIES], src: u16) -> bool
    ensures { result ≡ has_room replay src }
{
    let there = find(replay, src);
    there.held.src == src || replay[ENTRIES - 1].src == 0
}

// What stands at place i when e has gone in at place p.
#[tactic(auto, unfolding(crate::specs::Replay::shifted_at))]
fn shifted(replay: [Entry; ENTRIES], p: usize, e: Entry, i: usize) -> Entry
    requires { i < replay_entries }
    ensures { result ≡ shifted_at replay p e i }
{
    if i < p {
        return replay[i];
    }
    if i == p {
        return e;
    }
    replay[i - 1]
}

// The list with an entry gone in at place p: those from there on move up by one. A loop that writes place by place: by `array::from_fn` the proof of the 32
// places does not close.
fn shift(replay: [Entry; ENTRIES], p: usize, e: Entry) -> [Entry; ENTRIES]
    ensures { result ≡ tab (shifted_at replay p e) replay_entries }
{
    let mut after = replay;
    for i in 0..ENTRIES {
        after[i] = shifted(replay, p, e, i);
    }
    after
}

// The list with an entry in its source's place, or between the lesser and the greater; it stays where there is no room, and for source 0.
fn insert(replay: [Entry; ENTRIES], e: Entry) -> [Entry; ENTRIES]
    ensures { result ≡ inserted replay e }
{
    let mut after = replay;
    if e.src == 0 {
        return after;
    }
    let found = find(replay, e.src);
    if found.held.src == e.src {
        after[found.at] = e;
        return after;
    }
    if replay[ENTRIES - 1].src == 0 {
        return shift(replay, found.at, e);
    }
    after
}

// The greater of the entry's pair and this one.
#[tactic(auto, unfolding(crate::specs::Replay::raised))]
fn raise(e: Entry, pair: Pair) -> Pair
    ensures { result ≡ raised e pair }
{
    if e.src == 0 {
        return pair;
    }
    super::pair::max(pair, e.pair)
}

// Whether a message with this SeqAuth, SegN and DST is the last segmented message handed up.
#[tactic(auto, unfolding(crate::specs::Replay::is_last, crate::specs::Pair::same_pair))]
pub fn is_last(last: Last, message: Last) -> bool
    ensures { result ≡ is_last last message }
{
    last.dst != 0 && last == message
}

// The list after a whole message of a source was accepted.
#[tactic(auto, unfolding(crate::specs::Replay::accepted_by))]
pub fn accept(replay: [Entry; ENTRIES], src: u16, pair: Pair) -> [Entry; ENTRIES]
    ensures { result ≡ accepted replay src pair }
{
    let e = look_up(replay, src);
    let raised = raise(e, pair);
    insert(
        replay,
        Entry {
            src,
            pair: raised,
            last: e.last,
        },
    )
}

// The list after a segmented message of a source was handed up.
#[tactic(auto, unfolding(crate::specs::Replay::handed_up_by))]
pub fn hand_up(replay: [Entry; ENTRIES], src: u16, last: Last) -> [Entry; ENTRIES]
    ensures { result ≡ handed_up replay src last }
{
    let raised = raise(look_up(replay, src), last.auth);
    insert(
        replay,
        Entry {
            src,
            pair: raised,
            last,
        },
    )
}
