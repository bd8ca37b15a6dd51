// Octets read from hex pairs of either case; - stands for no octets.
ghost use Rattle.std.specs.Prelude.{◌≡◌, ◌+◌, ◌≤◌, length};
ghost use Rattle.common.specs.Lent.{lent};
ghost use Rattle.text.specs.Hex.{hex_value, reading_pairs, reading, filling};

// The value of a hex digit: none where it is no such digit.
#[tactic(auto, unfolding(crate::specs::Hex::hex_value))]
pub fn value(digit: u8) -> Option<u8>
    ensures { result ≡ hex_value digit }
{
    match digit {
        b'0'..=b'9' => Some(digit - b'0'),
        b'a'..=b'f' => Some(digit - b'a' + 10),
        b'A'..=b'F' => Some(digit - b'A' + 10),
        _ => None,
    }
}

// Reads n pairs of digits into the first octets of out, up to the first that is none: false where there is one.
fn read_pairs(text: &[u8], n: usize, out: &mut [u8]) -> bool
    requires { (n + n ≡ length text.now) × (n ≤ length out.old) }
    ensures { lent result out.new ≡ reading_pairs text.now n out.old }
{
    // Counted by the pair, whose octet stands at the same place of out: that is what the loop keeps.
    for i in 0..n {
        let Some(high) = value(text[i + i]) else {
            return false;
        };
        let Some(low) = value(text[i + i + 1]) else {
            return false;
        };
        out[i] = high * 16 + low;
    }
    true
}

// Reads the octets of a text into the first octets of out, and says how many: none where it is not hex, or there is no room for so many.
#[tactic(auto, unfolding(crate::specs::Hex::reading))]
pub fn read(text: &[u8], out: &mut [u8]) -> Option<usize>
    ensures { lent result out.new ≡ reading text.now out.old }
{
    if common::equal(text, b"-") {
        return Some(0);
    }
    let n = text.len() / 2;
    if n == 0 {
        return None;
    }
    if text.len() % 2 == 1 {
        return None;
    }
    if out.len() < n {
        return None;
    }
    if read_pairs(text, n, out) {
        return Some(n);
    }
    None
}

// Reads the octets of a text into out: false where they are not as many as out has.
#[tactic(auto, unfolding(crate::specs::Hex::filling))]
pub fn fill(text: &[u8], out: &mut [u8]) -> bool
    ensures { lent result out.new ≡ filling text.now out.old }
{
    read(text, out) == Some(out.len())
}
