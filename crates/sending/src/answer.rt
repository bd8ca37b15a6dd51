// What a request to send is answered.
ghost use Rattle.std.specs.Prelude.{◌≡◌};
ghost use Rattle.sending.specs.Answer.{refused_at, spoken};

use super::transmission::Transmitted;
use receiver::answer::Refusal;
use receiver::state::Receiver;

#[derive(Clone, Copy)]
pub enum Answer {
    // One PDU is made: so many octets of the buffer.
    Sent(usize),
    // A segmented message is begun, and its segment 0 is made.
    Started {
        len: usize,
        // SegN.
        segn: u8,
    },
}

// Beside a refusal the receiver is as it was.
#[derive(Clone, Copy)]
pub struct Spoken {
    pub answer: Result<Answer, Refusal>,
    pub receiver: Receiver,
}

// A refusal that leaves everything.
pub(crate) fn refuse(r: Receiver, refusal: Refusal) -> Spoken
    ensures { result ≡ refused_at r refusal }
{
    Spoken {
        answer: Err(refusal),
        receiver: r,
    }
}

// What a transmission of one PDU is answered.
#[tactic(auto, unfolding(crate::specs::Answer::spoken))]
pub(crate) fn speak(t: Transmitted) -> Spoken
    ensures { result ≡ spoken t }
{
    Spoken {
        answer: t.sent.map(Answer::Sent),
        receiver: t.receiver,
    }
}
