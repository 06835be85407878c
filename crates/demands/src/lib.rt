// No code: what the association demands, of the calls that people make and of any endpoint, with the proofs that ours meets it.
#![tactic(auto)]
