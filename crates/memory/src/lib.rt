// What the receiver remembers of what it heard and sent: the message cache, the replay list, the sessions, the outgoing message.
#![tactic(auto)]

pub mod cache;
pub mod decision;
pub mod outgoing;
pub mod pair;
pub mod replay;
pub mod session;
