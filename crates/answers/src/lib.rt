// The console's answers: each is written behind those before it.
#![tactic(auto, using(text::proofs::WriterLaws::writing_rules))]

pub mod answer;
pub mod looking;
pub mod readings;
