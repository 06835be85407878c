// No code: a witness of demand 3, with sixteen PDUs open at once, a lost start and a lost middle.
#![tactic(auto)]
