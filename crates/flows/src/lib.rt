// Reading as one flow sees it: definitions and theorems, no code.
#![tactic(auto)]
