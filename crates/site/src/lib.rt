// The training site: nodes of one element with the keys of MP's sample data, and in words what they said and answer.
#![tactic(auto, using(text::proofs::WriterLaws::writing_rules))]

pub mod setting;
pub mod words;
