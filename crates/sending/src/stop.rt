// The caller may give up the outgoing message.
ghost use Rattle.std.specs.Prelude.{◌≡◌};
ghost use Rattle.sending.specs.Stop.{stopping};

use receiver::answer::Refusal;
use receiver::give_up::GivenUp;
use receiver::state::Receiver;

// Gives up the message that is kept; 14 where none is.
#[tactic(auto, unfolding(crate::specs::Stop::stopping))]
pub fn stop(r: Receiver) -> GivenUp
    ensures { result ≡ stopping r }
{
    if r.out.src == 0 {
        return GivenUp {
            answer: Err(Refusal::OutsideRules),
            receiver: r,
        };
    }
    GivenUp {
        answer: Ok(()),
        receiver: r.with_outgoing(memory::outgoing::none()),
    }
}
