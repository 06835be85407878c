// Packets as document 01 lays them out: their head, the fields of types 9 and 11, and laws of them. No state. fields is the code that reads them.
#![tactic(auto)]

ghost use Rattle.std.specs.Prelude.{◌≡◌, ◌<◌};
ghost use Rattle.wire.specs.Packet.{bit as bit_of};
ghost use Rattle.wire.specs.Type9.{same_flow};

// What setup fixes: our device ID, the MTU, R (the bytes of a stream context's room), and the width of an ID. Callers in C lend it too: its fields
// stand in the order of include/kaiverohm.h.
#[repr(C)]
#[derive(Clone, Copy)]
pub struct Setup {
    pub device: u16,
    pub mtu: usize,
    pub room: usize,
    // 0: IDs of 16 bits; any other number: of 8
    pub narrow: usize,
}

// A flow: who sends, at which priority, under which class of service.
#[derive(Clone, Copy, PartialEq, Eq)]
pub struct Flow {
    pub source: usize,
    pub priority: usize,
    pub cos: usize,
}

// What is read of a type 9 packet: its flags, where its data begin, and its flow.
#[derive(Clone, Copy)]
pub struct StreamHead {
    pub flags: usize,
    pub from: usize,
    pub flow: Flow,
}

// A type 11 packet: `raw` bytes of data behind its head.
#[derive(Clone, Copy)]
pub struct MessageSegment {
    pub source: usize,
    pub letter: usize,
    pub mbox: usize,
    pub msglen: usize,
    pub ssize: usize,
    pub msgseg: usize,
    pub raw: usize,
}

// Whether two flows are one: the only place that compares them.
#[tactic(auto, unfolding(crate::specs::Type9::same_flow))]
pub fn same_flow(a: Flow, b: Flow) -> bool
    ensures { result ≡ same_flow a b }
{
    a == b
}

// Whether the bit of that weight is set.
pub fn bit(byte: usize, weight: usize) -> bool
    requires { 0 < weight }
    ensures { result ≡ bit_of byte weight }
{
    byte / weight % 2 == 1
}
