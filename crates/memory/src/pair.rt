// A message is placed in its source's time by its IV Index and its sequence number: a pair, compared IV Index first.
ghost use Rattle.std.specs.Prelude.{◌≡◌};
ghost use Rattle.memory.specs.Pair.{newer, same_pair, greater};

// An IV Index and a sequence number: those of a whole message, or the SeqAuth of a segmented one. The order of the fields is the order of pairs.
#[derive(Clone, Copy, PartialEq, Eq, PartialOrd, Ord)]
pub struct Pair {
    pub iv: u32,
    pub seq: u32,
}

// Whether a is greater than b.
#[tactic(auto, unfolding(crate::specs::Pair::newer))]
pub fn is_newer(a: Pair, b: Pair) -> bool
    ensures { result ≡ newer a b }
{
    a > b
}

// Whether a and b are the same pair.
#[tactic(auto, unfolding(crate::specs::Pair::same_pair))]
pub fn same(a: Pair, b: Pair) -> bool
    ensures { result ≡ same_pair a b }
{
    a == b
}

// The greater of the two.
#[tactic(auto, unfolding(crate::specs::Pair::greater, crate::specs::Pair::newer))]
pub fn max(a: Pair, b: Pair) -> Pair
    ensures { result ≡ greater a b }
{
    a.max(b)
}
