// A PDU says one bit of the IV Index that it was sealed with, and the receiver finds the rest.
ghost use Rattle.std.specs.Prelude.{◌≡◌};
ghost use Rattle.network.specs.IvIndex.{iv_index_heard, iv_index_sent};

// Of current and current minus 1 the one whose lowest bit is ivi, whatever the update flag is; none where that would be below 0. Only
// the lowest bit of ivi counts.
#[tactic(auto, unfolding(crate::specs::IvIndex::iv_index_heard))]
pub fn heard(current: u32, ivi: u8) -> Option<u32>
    ensures { result ≡ iv_index_heard current ivi }
{
    if current % 2 == (ivi % 2) as u32 {
        return Some(current);
    }
    current.checked_sub(1)
}

// The current one, or with the update flag set the one before; 0 stays 0, which setup refuses with the flag.
#[tactic(auto, unfolding(crate::specs::IvIndex::iv_index_sent))]
pub fn sent(current: u32, flag: bool) -> u32
    ensures { result ≡ iv_index_sent current flag }
{
    if !flag {
        return current;
    }
    current.saturating_sub(1)
}
