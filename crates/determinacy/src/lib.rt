// No code of its own: specs/ states of the contracts of the crates below what proofs/ proves of them.
#![tactic(auto)]
