// The demands have no code of their own: specs/ states them over the definitions of the crates below, proofs/ proves them.
#![tactic(auto)]
