// The crowd has no code of its own: specs/ states that the premises of demand 3 are met by eight speakers of each kind, and those of demand 2 by a message to a label
// that shares its address with another; proofs/ proves it.
#![tactic(auto)]
