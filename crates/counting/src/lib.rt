// No code: when a message is complete, said of the answer by the count of ones of its marks, and why no stranger counts.
#![tactic(auto)]
