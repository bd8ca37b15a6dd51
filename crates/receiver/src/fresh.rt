// A receiver is set up: fresh, it has heard and sent nothing.
ghost use Rattle.std.specs.Prelude.{◌≡◌};
ghost use Rattle.receiver.specs.Fresh.{fresh, setting_up};

use super::answer::Refusal;
use super::state::Receiver;
use node::addresses::Node;
use node::setup::Setup;

// The receiver stands beside the answer, whatever that is: one of zeros beside a refusal.
#[derive(Clone, Copy)]
pub struct Ready {
    pub answer: Result<(), Refusal>,
    pub receiver: Receiver,
}

// A receiver that has heard and sent nothing.
fn receiver(node: Node, next: [u32; node::addresses::ELEMENTS]) -> Receiver
    ensures { result ≡ fresh node next }
{
    Receiver {
        node,
        next,
        cache: memory::cache::none(),
        replay: [memory::replay::none(); memory::replay::ENTRIES],
        sessions: [memory::session::none(); memory::session::SLOTS],
        out: memory::outgoing::none(),
    }
}

// Sets a receiver up; beside a refusal all is zero.
#[tactic(auto, unfolding(crate::specs::Fresh::setting_up))]
pub fn set_up(s: Setup) -> Ready
    ensures { result ≡ setting_up s }
{
    match node::setup::make(s) {
        Some(m) => Ready {
            answer: Ok(()),
            receiver: receiver(m.node, m.next),
        },
        None => Ready {
            answer: Err(Refusal::OutsideRules),
            receiver: receiver(node::addresses::none(), [0u32; node::addresses::ELEMENTS]),
        },
    }
}
