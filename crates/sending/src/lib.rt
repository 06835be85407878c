// What boards send, what is left of it on the backplane, and what the endpoint delivers of it: definitions and theorems, no code.
#![tactic(auto)]
