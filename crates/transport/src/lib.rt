// Transport (MP 3.5, 3.6): what a transport PDU is, which message a segment belongs to, segments and acknowledgements written, access messages secured and
// opened, a maker's segments vetted.
#![tactic(auto)]

pub mod form;
mod listed;
pub mod opcode;
pub mod securing;
pub mod segment;
pub mod seq_auth;
pub mod vetting;
