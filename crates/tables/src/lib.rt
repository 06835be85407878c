// Tables of refusals: definitions and laws, no code.
#![tactic(auto)]
