// The console's lines, read: what a line says, and what is kept of it beside the receiver.
#![tactic(auto)]

mod command;
pub mod desk;
pub mod line;
mod listing;
mod naming;
mod requesting;
pub mod setting;
