// Opening one Network PDU: refusals 1 to 4 in order, then its header.
ghost use Rattle.std.specs.Prelude.{◌≡◌};
ghost use Rattle.common.specs.Paper.{number_of};
ghost use Rattle.network.specs.Opening.{paper, refused, admitted, judged, opening};

use super::header::Header;
use super::trial::{Found, Pdu};
use keys::NetworkKeys;

// How many network keys can be held.
pub const KEYS: usize = 4;

// Why a PDU is not opened.
#[derive(Clone, Copy)]
pub enum Refusal {
    // 1: its length is not 14 to 29.
    WrongLength,
    // 2: no candidate key, or no IV Index of 0 or more fits IVI.
    NoCandidate,
    // 3: no candidate authenticates.
    NotAuthentic,
    // 4: an address is not allowed.
    WrongAddress,
}

// Document 01's number of an answer; 0 where nothing is refused.
pub fn number(opened: Result<Header, Refusal>) -> u32
    ensures { result ≡ number_of (paper opened) }
{
    let Err(refusal) = opened else {
        return 0;
    };
    match refusal {
        Refusal::WrongLength => 1,
        Refusal::NoCandidate => 2,
        Refusal::NotAuthentic => 3,
        Refusal::WrongAddress => 4,
    }
}

#[derive(Clone, Copy)]
pub struct Opening {
    // How many keys were tried: the opening key's place among the candidates, from 1, or their number where none opens it.
    pub trials: usize,
    pub opened: Result<Header, Refusal>,
}

fn refuse(refusal: Refusal, trials: usize) -> Opening
    ensures { result ≡ refused refusal trials }
{
    Opening {
        trials,
        opened: Err(refusal),
    }
}

// Refusals 3 and 4, of what the search gives.
fn admit(found: Option<Header>) -> Result<Header, Refusal>
    ensures { result ≡ admitted found }
{
    let header = found.ok_or(Refusal::NotAuthentic)?;
    if !super::address::allowed(header.ctl, header.src, header.dst) {
        return Err(Refusal::WrongAddress);
    }
    Ok(header)
}

#[tactic(auto, unfolding(crate::specs::Opening::judged))]
fn judge(s: Found) -> Opening
    ensures { result ≡ judged s }
{
    Opening {
        trials: s.trials,
        opened: admit(s.opened),
    }
}

// Opens a PDU with the first `count` keys held, at the current IV Index. An array and a count, not a slice: a count above four means four,
// so that no call has a premise.
pub fn open(held: [NetworkKeys; KEYS], count: usize, current: u32, pdu: &[u8]) -> Opening
    ensures { result ≡ opening held count current pdu.now }
{
    if pdu.len() < 14 {
        return refuse(Refusal::WrongLength, 0);
    }
    if super::header::PDU < pdu.len() {
        return refuse(Refusal::WrongLength, 0);
    }
    let first = pdu[0];
    let Some(iv) = super::iv_index::heard(current, first / 128) else {
        return refuse(Refusal::NoCandidate, 0);
    };
    let s = Pdu { octets: pdu }.search(held, count, first % 128, iv);
    if s.trials == 0 {
        return refuse(Refusal::NoCandidate, 0);
    }
    judge(s)
}
