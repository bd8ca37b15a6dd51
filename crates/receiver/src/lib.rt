// The receiver: set up with keys and addresses, it hears Network PDUs one by one, forwards them and hands up their messages.
#![tactic(auto)]

pub mod answer;
pub mod fresh;
pub mod give_up;
pub mod hear;
mod segmented;
pub mod state;
mod whole;
