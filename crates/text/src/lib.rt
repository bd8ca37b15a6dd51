// Text as programs read and write it: a line's fields, octets as hex pairs, numbers, a refusal's number in words, and text behind text in a lent buffer.
#![tactic(auto)]

pub mod field;
pub mod hex;
pub mod number;
pub mod writer;

ghost use Rattle.std.specs.Prelude.{◌≡◌, ◌+◌, ◌≤◌, min, length, take, drop};
ghost use Rattle.std.specs.List.{position};
ghost use Rattle.io.specs.Counts.{IsPrefixLen};
ghost use Rattle.common.specs.Lent.{lent};
ghost use Rattle.common.specs.Search.{first as place_of};
ghost use Rattle.text.specs.Field.{is};
ghost use Rattle.text.specs.Written.{putting};

// The first n octets of s: all of them where there are no more than n.
pub fn first(s: &[u8], n: usize) -> &[u8]
    ensures { result.now ≡ take n s.now }
{
    &s[..n.min(s.len())]
}

// A number of octets of s: n, or all where it has no more than n. `&s[..r]` then needs no proof.
pub fn within(n: usize, s: &[u8]) -> usize
    ensures prefix_len { IsPrefixLen result s.now }
    ensures value { result ≡ min n (length s.now) }
{
    n.min(s.len())
}

// The place of the first mark.
fn place(s: &[u8], mark: u8) -> Option<usize>
    ensures { result ≡ position (is mark) s.now }
{
    s.iter().position(|&c| c == mark)
}

// Where the first mark at or behind `from` stands: at the end of s where there is none, and at `from` where that is past the end.
#[tactic(auto, using(std::proofs::lemmas::Grind::common_steps, crate::proofs::FieldLaws::until_rules))]
pub fn until(s: &[u8], from: usize, mark: u8) -> usize
    ensures value { result ≡ from + place_of (is mark) (drop from s.now) }
    ensures lower_bound { from ≤ result }
{
    let rest = &s[from.min(s.len())..];
    from + place(rest, mark).unwrap_or(rest.len())
}

// Puts s into out at `at`, as much of it as there is room for, and says where it ends.
pub fn put(s: &[u8], out: &mut [u8], at: usize) -> usize
    ensures { lent result out.new ≡ putting s.now out.old at }
{
    if out.len() <= at {
        return out.len();
    }
    let room = out.len() - at;
    common::copy(s, &mut out[at..]);
    if s.len() < room {
        return at + s.len();
    }
    at + room
}
