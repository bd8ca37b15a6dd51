// The receiver's whole state, by value.
ghost use Rattle.std.specs.Prelude.{◌≡◌};
ghost use Rattle.receiver.specs.State.{with_cache, with_replay, with_session, with_outgoing};

use memory::cache::Cache;
use memory::outgoing::Outgoing;
use memory::replay::{ENTRIES, Entry};
use memory::session::{SLOTS, Session};
use node::addresses::Node;

#[derive(Clone, Copy)]
pub struct Receiver {
    pub node: Node,
    // Each element's next SEQ.
    pub next: [u32; node::addresses::ELEMENTS],
    pub cache: Cache,
    pub replay: [Entry; ENTRIES],
    pub sessions: [Session; SLOTS],
    // The outgoing segmented message.
    pub out: Outgoing,
}

// Each puts its part in a copy of the whole, not by struct update, of which the compiler would put the state together from all its parts.
impl Receiver {
    pub(crate) fn with_cache(self, cache: Cache) -> Receiver
        ensures { result ≡ with_cache self cache }
    {
        let mut after = self;
        after.cache = cache;
        after
    }

    pub(crate) fn with_replay(self, replay: [Entry; ENTRIES]) -> Receiver
        ensures { result ≡ with_replay self replay }
    {
        let mut after = self;
        after.replay = replay;
        after
    }

    // The receiver with another session in a slot; past the last slot none is set.
    pub(crate) fn with_session(self, slot: usize, s: Session) -> Receiver
        ensures { result ≡ with_session self slot s }
    {
        let mut after = self;
        if slot < SLOTS {
            after.sessions[slot] = s;
        }
        after
    }

    // The receiver with another outgoing message.
    pub fn with_outgoing(self, out: Outgoing) -> Receiver
        ensures { result ≡ with_outgoing self out }
    {
        let mut after = self;
        after.out = out;
        after
    }
}
