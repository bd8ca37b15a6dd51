// Any one segment tells the sequence number that its message was begun with (MP 3.5.3.1).
ghost use Rattle.std.specs.Prelude.{◌≡◌};
ghost use Rattle.transport.specs.SeqAuth.{seq_auth};

// The number that a segment's message was begun with: the greatest from seq - 8191 to seq, at least 0, whose low 13 bits are those of seqzero. None, refusal 8:
// no number of 0 or more ends in SeqZero, so there is no SeqAuth.
#[tactic(auto, unfolding(crate::specs::SeqAuth::seq_auth))]
pub fn find(seq: u32, seqzero: u16) -> Option<u32>
    ensures { result ≡ seq_auth seq seqzero }
{
    let end = u32::from(seqzero % 8192);
    if end <= seq % 8192 {
        return Some(seq / 8192 * 8192 + end);
    }
    if 8192 <= seq {
        return Some((seq / 8192 - 1) * 8192 + end);
    }
    None
}
