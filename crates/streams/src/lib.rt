// What a type 9 packet does, from row 6 of the refusal table on: definitions and their laws, no code. beginning, continuing, ending and stream_step are the code.
#![tactic(auto)]
