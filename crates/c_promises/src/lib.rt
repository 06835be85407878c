// No code: statements about the functions that C calls. They stand in specs/, their proofs in proofs/.
#![tactic(auto)]
