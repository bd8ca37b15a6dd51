// What the receiver answers: one of document 01's answers, with its values.
ghost use Rattle.std.specs.Prelude.{◌≡◌};
ghost use Rattle.receiver.specs.Answer.{refusal_number, opening_refusal, decision_refusal};

use super::state::Receiver;
use memory::outgoing::Effect;
use memory::pair::Pair;
use transport::securing::Opener;

// The refusals, in their order of checking.
#[derive(Clone, Copy)]
pub enum Refusal {
    // 16: a buffer lent for writing is shorter than 29 (PDU) or 384 (message).
    ShortBuffer,
    // 1: length not 14-29.
    WrongLength,
    // 2: no candidate key, or no IV Index of 0 or more fits IVI.
    NoCandidate,
    // 3: no candidate authenticates.
    NotAuthentic,
    // 4: an address is not allowed.
    WrongAddress,
    // 22: SRC is one of our elements.
    OwnSource,
    // 5: in the cache.
    Cached,
    // 6: not for this node.
    NotForNode,
    // 7: transport form is wrong.
    WrongForm,
    // 8: no SeqAuth exists.
    NoSeqAuth,
    // 9: the replay entry or the open session is newer.
    Replayed,
    // 10: joins a session but differs.
    Differs,
    // 11: source has no replay entry and all 32 are used.
    NoEntryLeft,
    // 12: the segment would open a session and eight other sources hold all slots.
    NoSlotLeft,
    // 13: no pair of a fitting key and label, or key alone, opens the message, or it is too short for payload and TransMIC.
    NotOpened,
    // 14: a request outside the rules.
    OutsideRules,
    // 15: the transmission needs an SEQ above 0xFFFFFF.
    NoSeqLeft,
}

impl Refusal {
    // Document 01's number of a refusal.
    pub fn number(self) -> u32
        ensures { result ≡ refusal_number self }
    {
        match self {
            Refusal::ShortBuffer => 16,
            Refusal::WrongLength => 1,
            Refusal::NoCandidate => 2,
            Refusal::NotAuthentic => 3,
            Refusal::WrongAddress => 4,
            Refusal::OwnSource => 22,
            Refusal::Cached => 5,
            Refusal::NotForNode => 6,
            Refusal::WrongForm => 7,
            Refusal::NoSeqAuth => 8,
            Refusal::Replayed => 9,
            Refusal::Differs => 10,
            Refusal::NoEntryLeft => 11,
            Refusal::NoSlotLeft => 12,
            Refusal::NotOpened => 13,
            Refusal::OutsideRules => 14,
            Refusal::NoSeqLeft => 15,
        }
    }
}

// 1 to 4 are refusals of opening a Network PDU.
impl From<network::opening::Refusal> for Refusal {
    ghost from_gives = { λ n r. r ≡ opening_refusal n };

    fn from(refusal: network::opening::Refusal) -> Refusal {
        match refusal {
            network::opening::Refusal::WrongLength => Refusal::WrongLength,
            network::opening::Refusal::NoCandidate => Refusal::NoCandidate,
            network::opening::Refusal::NotAuthentic => Refusal::NotAuthentic,
            network::opening::Refusal::WrongAddress => Refusal::WrongAddress,
        }
    }
}

// 9 to 12 are those of the decision on a segment.
impl From<memory::decision::Refusal> for Refusal {
    ghost from_gives = { λ n r. r ≡ decision_refusal n };

    fn from(refusal: memory::decision::Refusal) -> Refusal {
        match refusal {
            memory::decision::Refusal::Stale => Refusal::Replayed,
            memory::decision::Refusal::Differs => Refusal::Differs,
            memory::decision::Refusal::NoEntryLeft => Refusal::NoEntryLeft,
            memory::decision::Refusal::NoSlotLeft => Refusal::NoSlotLeft,
        }
    }
}

// What became of a PDU that was heard.
#[derive(Clone, Copy)]
pub enum Answer {
    // A segment was stored; the bits report the places filled.
    Stored {
        src: u16,
        auth: Pair,
        bits: u32,
    },
    // A segment had come before.
    Repeated {
        src: u16,
        auth: Pair,
        bits: u32,
    },
    // An access message is handed up: so many octets of the message buffer. Of a segmented one the pair is its SeqAuth.
    Access {
        src: u16,
        dst: u16,
        network: usize,
        opener: Opener,
        pair: Pair,
        len: usize,
    },
    // A control message is handed up.
    Control {
        src: u16,
        dst: u16,
        network: usize,
        opcode: u8,
        pair: Pair,
        len: usize,
    },
    // An acknowledgement was heard, with its BlockAck.
    Acknowledgement {
        src: u16,
        bits: u32,
        effect: Effect,
    },
}

// What became of a PDU behind the network layer, with the number of pairs tried.
#[derive(Clone, Copy)]
pub struct Taken {
    pub answer: Result<Answer, Refusal>,
    pub trials: usize,
    pub receiver: Receiver,
}

#[derive(Clone, Copy)]
pub struct Heard {
    pub answer: Result<Answer, Refusal>,
    // How many network keys were tried, and pairs of an application key and a label, or of a key alone.
    pub network: usize,
    pub application: usize,
    // The octets of the forward buffer that were written: the PDU's length, or 0.
    pub forwarded: usize,
    pub receiver: Receiver,
}
