// What makes a packet wrong by itself, rows 6, 7, 11 and 20 to 22: definitions and their laws, no code. stream_rules, message_rules and, for row 11, ending are the code.
#![tactic(auto)]
