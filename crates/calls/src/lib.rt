// No code: the calls that read, one after the other, and the rooms that a caller then fetches, with the proofs that these are the bytes delivered.
#![tactic(auto)]
