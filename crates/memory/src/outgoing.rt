// The one outgoing segmented message that is kept, and what a heard acknowledgement does to it.
ghost use Rattle.std.specs.Prelude.{◌≡◌};
ghost use Rattle.memory.specs.Outgoing.{no_outgoing, fits_outgoing, heard_with, acknowledging};

use super::pair::Pair;
use super::session::{MESSAGE, Terms};
use network::header::Header;

// SRC 0 marks that none is kept. It is no Option: a caller may pass one with SRC 0 and anything beside it, and what is promised holds of that too.
#[derive(Clone, Copy)]
pub struct Outgoing {
    // The sending element's address.
    pub src: u16,
    // SeqAuth.
    pub auth: Pair,
    pub terms: Terms,
    pub ttl: u8,
    // Bit SegO is set where that segment was heard.
    pub heard: u32,
    // How many octets the whole message has. It stands beside them, as there is no heap.
    pub len: usize,
    pub bytes: [u8; MESSAGE],
}

// What a heard acknowledgement does.
#[derive(Clone, Copy, PartialEq, Eq)]
pub enum Effect {
    // It fits nothing, or marks nothing new.
    Nothing,
    // It marks segments as heard.
    Marked,
    // Now all segments are heard, and the message is no longer kept.
    Completed,
    // Its 32 bits are all zero, and the message is no longer kept.
    Cancelled,
}

#[derive(Clone, Copy)]
pub struct Acknowledged {
    pub effect: Effect,
    pub out: Outgoing,
}

// Nothing is kept: zeros.
pub fn none() -> Outgoing
    ensures { result ≡ no_outgoing }
{
    Outgoing {
        src: 0,
        auth: Pair { iv: 0, seq: 0 },
        terms: super::session::NO_TERMS,
        ttl: 0,
        heard: 0,
        len: 0,
        bytes: [0u8; MESSAGE],
    }
}

// Whether an acknowledgement is for the message that is kept.
#[tactic(auto, unfolding(crate::specs::Outgoing::fits_outgoing))]
fn fits(out: Outgoing, h: Header, obo: bool, seqzero: u16) -> bool
    ensures { result ≡ fits_outgoing out h obo seqzero }
{
    out.src != 0
        && h.dst == out.src
        && seqzero as u32 == out.auth.seq % 8192
        && (obo || h.src == out.terms.dst)
}

// The segments heard so far and those of a BlockAck; bits above SegN are ignored.
#[tactic(auto, unfolding(crate::specs::Outgoing::heard_with))]
fn heard_with(out: Outgoing, bits: u32) -> u32
    ensures { result ≡ heard_with out bits }
{
    out.heard | (bits & common::bits::all(out.terms.segn as u32))
}

// What a heard acknowledgement does to the message that is kept.
#[tactic(auto, unfolding(crate::specs::Outgoing::acknowledging))]
pub fn acknowledge(out: Outgoing, h: Header, obo: bool, seqzero: u16, bits: u32) -> Acknowledged
    ensures { result ≡ acknowledging out h obo seqzero bits }
{
    if !fits(out, h, obo, seqzero) {
        return Acknowledged {
            effect: Effect::Nothing,
            out,
        };
    }
    let all = common::bits::all(out.terms.segn as u32);
    if bits == 0 {
        return Acknowledged {
            effect: Effect::Cancelled,
            out: none(),
        };
    }
    let heard = heard_with(out, bits);
    if heard == all {
        return Acknowledged {
            effect: Effect::Completed,
            out: none(),
        };
    }
    if heard == out.heard {
        return Acknowledged {
            effect: Effect::Nothing,
            out,
        };
    }
    Acknowledged {
        effect: Effect::Marked,
        out: Outgoing { heard, ..out },
    }
}
