// The meaning of formulas is in specs/ and proofs/; there is no code yet.
#![tactic(auto)]
