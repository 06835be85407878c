// What a type 11 packet does, from row 20 of the refusal table on: definitions and their laws. choosing and message_step are the code.
#![tactic(auto)]

// Where a segment of a message of several goes: context n, with the marks and the last segment's length that it has so far.
#[derive(Clone, Copy)]
pub struct Chosen {
    pub n: usize,
    pub marks: usize,
    pub last: usize,
}
