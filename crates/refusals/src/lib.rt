// The refusal table of document 01: a refusal is one of its rows, and each has the number that the document gives it.
#![tactic(auto)]

ghost use Rattle.std.specs.Prelude.{◌≡◌};
ghost use Rattle.refusals.specs.Numbers.{row_number};

mod numbers;

pub use numbers::Numbered;

// The rows, by their numbers (docs/REFUSALS.md says what each means; include/kaiverohm.h has the same names).
#[derive(Clone, Copy, Debug, PartialEq, Eq)]
pub enum Refusal {
    Short = 1,
    IdWidth = 2,
    OtherDevice = 3,
    Type = 4,
    Extended = 5,
    Form = 6,
    Size = 7,
    NotOpen = 8,
    PastRoom = 9,
    StreamsFull = 10,
    EndLength = 11,
    Buffer = 12,
    NoContext = 13,
    Pdu = 14,
    NoSegment = 15,
    Out = 16,
    Priority = 17,
    Mtu = 18,
    State = 19,
    Ssize = 20,
    SegmentLength = 21,
    PastLast = 22,
    OtherMessage = 23,
    Twice = 24,
    MessagesFull = 25,
    WideId = 47,
}

impl Refusal {
    // The number that document 01 gives it.
    pub fn number(self) -> usize
        ensures { result ≡ row_number self }
    {
        self as usize
    }
}
