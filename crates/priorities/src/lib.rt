// Priority belongs to the flow: what is joined has one source, priority and cos, and packets that differ in priority alone stay apart. Definitions and
// theorems, no code.
#![tactic(auto)]
