// The caller may give up a session.
ghost use Rattle.std.specs.Prelude.{◌≡◌};
ghost use Rattle.receiver.specs.GiveUp.{giving_up};

use super::answer::Refusal;
use super::state::Receiver;
use memory::session::SessionKey;

// Beside a refusal the receiver is as it was.
#[derive(Clone, Copy)]
pub struct GivenUp {
    pub answer: Result<(), Refusal>,
    pub receiver: Receiver,
}

// Gives up the session of a source; its slot is zeroed.
#[tactic(auto, unfolding(crate::specs::GiveUp::giving_up))]
pub fn session(r: Receiver, src: u16) -> GivenUp
    ensures { result ≡ giving_up r src }
{
    match memory::session::place(r.sessions, SessionKey { src }) {
        Some(slot) if src != 0 => GivenUp {
            answer: Ok(()),
            receiver: r.with_session(slot, memory::session::none()),
        },
        _ => GivenUp {
            answer: Err(Refusal::OutsideRules),
            receiver: r,
        },
    }
}
