// The fields of a line: what stands between its spaces.
ghost use Rattle.std.specs.Prelude.{◌≡◌, ◌≤◌, length, drop};
ghost use Rattle.text.specs.Field.{behind, field_of};

// Where field number n of a line begins, counted from 0: at the line's end where it has no such field.
#[tactic(auto, using(crate::proofs::FieldLaws::behind_rules))]
fn start(line: &[u8], n: usize) -> usize
    ensures within { result ≤ length line.now }
    ensures exact { drop result line.now ≡ behind n line.now }
{
    let mut left = n;
    for (i, &c) in line.iter().enumerate() {
        if left == 0 {
            return i;
        }
        if c == b' ' {
            left -= 1;
        }
    }
    line.len()
}

// Field number n of a line and all that follows it: where that is to be the last field, there is no space in it.
pub fn last(line: &[u8], n: usize) -> &[u8]
    ensures { result.now ≡ behind n line.now }
{
    let from = start(line, n);
    &line[from..]
}

// Field number n of a line: no octets where it has no such field.
#[tactic(auto, unfolding(crate::specs::Field::field_of))]
pub fn nth(line: &[u8], n: usize) -> &[u8]
    ensures { result.now ≡ field_of n line.now }
{
    let rest = last(line, n);
    super::first(rest, super::until(rest, 0, b' '))
}
