// What the segment writer answers and leaves: definitions and their laws, no code. fitting and segments are the code.
#![tactic(auto)]
