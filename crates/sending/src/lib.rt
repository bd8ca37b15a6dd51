// The receiver speaks: access and control messages, whole or in segments, acknowledgements, and giving up the outgoing message.
#![tactic(auto)]

pub mod access;
pub mod acknowledge;
pub mod answer;
pub mod control;
pub mod request;
pub mod segment;
pub mod stop;
pub mod transmission;
