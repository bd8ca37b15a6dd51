// The message cache: what was heard lately, by SRC, SEQ and IV Index. A full cache replaces its oldest entry.
ghost use Rattle.std.specs.Prelude.{◌≡◌};
ghost use Rattle.memory.specs.Cache.{no_cache, seen_of, seen, remembered};

use network::header::Header;

// How many entries there are.
pub const ENTRIES: usize = 16;

// A cache entry; SRC 0 marks an empty place. It is no Option: a cache that a caller passes may hold anything beside SRC 0, and what is promised holds of
// that too.
#[derive(Clone, Copy, PartialEq, Eq)]
pub struct Seen {
    pub src: u16,
    pub seq: u32,
    // The IV Index under which the PDU was opened.
    pub iv: u32,
}

#[derive(Clone, Copy)]
pub struct Cache {
    pub entries: [Seen; ENTRIES],
    // The place that is filled next: an empty one, or that of the oldest entry. Of a number past the last its remainder counts.
    pub next: usize,
}

// A cache with no entry.
pub fn none() -> Cache
    ensures { result ≡ no_cache }
{
    Cache {
        entries: [Seen {
            src: 0,
            seq: 0,
            iv: 0,
        }; ENTRIES],
        next: 0,
    }
}

// The entry of a PDU.
fn entry(h: Header) -> Seen
    ensures { result ≡ seen_of h }
{
    Seen {
        src: h.src,
        seq: h.seq,
        iv: h.iv,
    }
}

// Whether a PDU with this header is in the cache.
pub fn is_seen(cache: Cache, h: Header) -> bool
    ensures { result ≡ seen cache h }
{
    // Not by `contains`: what entries are compared by stands in the closure, where an edit can plant another.
    let own = entry(h);
    cache.entries.iter().any(|e| *e == own)
}

// The cache with the PDU of this header as its newest entry.
#[tactic(auto, unfolding(crate::specs::Cache::remembered))]
pub fn remember(cache: Cache, h: Header) -> Cache
    ensures { result ≡ remembered cache h }
{
    let at = cache.next % ENTRIES;
    let mut after = cache;
    after.entries[at] = entry(h);
    after.next = (at + 1) % ENTRIES;
    after
}
