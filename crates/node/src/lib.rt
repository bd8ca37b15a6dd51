// What setup fixes, keys and labels and what is derived from them, addresses, relay; and the IV Index with its flag.
#![tactic(auto)]

pub mod addresses;
pub mod setup;
