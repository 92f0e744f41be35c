// The trial ring is a torus: definitions and proofs, no code.
#![tactic(auto)]
