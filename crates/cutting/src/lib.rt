// What a segment of a PDU is made of: its sizes, and the bytes written. It knows nothing of a state.
#![tactic(auto)]

ghost use Rattle.std.specs.Prelude.{◌≡◌, ◌++◌, ◌+◌, ◌-◌, ◌%◌, min, ◌<◌, ◌≤◌, length};
ghost use Rattle.lists.specs.Bytes.{written};
ghost use Rattle.cutting.specs.Cutting.{bad_size, segment_count, pad_of};

// Who sends to whom, under which stream, class of service and priority. Callers in C lend it too: its fields stand in the order of
// include/kaiverohm.h.
#[repr(C)]
#[derive(Clone, Copy)]
pub struct Heading {
    pub destination: u16,
    pub source: u16,
    pub stream: u16,
    pub cos: u8,
    pub priority: u8,
    // 0: IDs of 16 bits; any other number: of 8
    pub narrow: usize,
}

// Whether a PDU of that length has no bytes or over 65,536.
pub fn bad_size(size: usize) -> bool
    ensures { result ≡ bad_size size }
{
    if size == 0 {
        return true;
    }
    65536 < size
}

// ceil(size / MTU). Every caller has tested both.
pub fn count_of(mtu: usize, size: usize) -> usize
    requires { (0 < mtu) × (mtu ≤ 256) × (size ≤ 65536) }
    ensures { result ≡ segment_count mtu size }
{
    (size + (mtu - 1)) / mtu
}

// How many bytes of the PDU a segment holds whose data begin at `from`: the MTU, and what is left for the last.
// Every caller has a segment that begins in the PDU.
pub fn data_length(mtu: usize, size: usize, from: usize) -> usize
    requires { from ≤ size }
    ensures { result ≡ min mtu (size - from) }
{
    if mtu < size - from {
        return mtu;
    }
    size - from
}

// Writes the data from `at` on, and behind an odd number of them a pad byte. Every caller has room for them.
pub fn put(out: &mut [u8], at: usize, bytes: &[u8])
    requires { at + length bytes.now + length bytes.now % 2 ≤ length out.old }
    ensures { out.new ≡ written out.old at (bytes.now ++ pad_of (length bytes.now)) }
{
    let pad = [0];
    lists::store(out, at, bytes);
    lists::store(out, at + bytes.len(), &pad[..bytes.len() % 2]);
}
