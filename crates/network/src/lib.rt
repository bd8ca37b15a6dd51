// The Network PDU (MP 3.4): address kinds, the IV Index, the nonces, sealing one PDU, trying keys on one, opening it, forwarding it.
#![tactic(auto)]

pub mod address;
pub mod header;
pub mod iv_index;
pub mod nonce;
pub mod opening;
mod pdu;
pub mod sealing;
mod trial;
