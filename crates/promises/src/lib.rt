// No code: the statements of specs/ about what the public calls promise, each proved in proofs/.
#![tactic(auto)]
