// A segment's head: its length, its flags, and its bytes and its field written. It knows nothing of a state.
#![tactic(auto)]

ghost use Rattle.std.specs.Prelude.{◌≡◌, cond, [], ◌∷◌, ◌+◌, ◌≤◌, length};
ghost use Rattle.lists.specs.Bytes.{high, low, written};
ghost use Rattle.wire.specs.Packet.{header, first_byte_of, addressed};
ghost use Rattle.cutting.specs.Cutting.{flags_of, field_of};

use cutting::Heading;

// How many bytes stand before the data.
pub fn head_length(first: bool, last: bool, ids: usize) -> usize
    requires { ids ≤ 2 }
    ensures { (result ≡ cond first (header ids + 4) (cond last (header ids + 4) (header ids + 2)))
        × (header ids + 2 ≤ result) × (result ≤ header ids + 4) }
{
    let front = ids::header(ids);
    if first {
        return front + 4;
    }
    if last {
        return front + 4;
    }
    front + 2
}

// The weight of a bit that is set, else 0.
fn bit_of(set: bool, weight: u8) -> u8
    ensures { (result ≡ cond set weight 0) × (result ≤ weight) }
{
    if set {
        return weight;
    }
    0
}

// The flags of a segment with n bytes of data: S, E, three reserved bits, xh, O, P. Every caller has tested the MTU, and n is no more.
pub fn flags(first: bool, last: bool, n: usize) -> u8
    requires { n ≤ 256 }
    ensures { result ≡ flags_of first last n }
{
    let odd = (n + 1) / 2 % 2 == 1;
    let pad = n % 2 == 1;
    bit_of(first, 0b1000_0000) + bit_of(last, 0b0100_0000) + bit_of(odd, 0b10) + bit_of(pad, 0b1)
}

// Writes what stands before the field: byte 0, the IDs, cos and flags. Every caller has tested the priority, and has room for them.
pub fn put_head(out: &mut [u8], heading: Heading, flags: u8, ids: usize)
    requires { (heading.priority ≤ 3) × (1 ≤ ids) × (ids ≤ 2) × (header ids + 2 ≤ length out.old) }
    ensures { out.new
        ≡ written out.old 0
        (addressed ids (first_byte_of ids heading.priority 9) heading.destination heading.source (heading.cos ∷ flags ∷ [])) }
{
    let first = heading.priority * 64 + (ids as u8 - 1) * 16 + 9;
    let to = heading.destination as usize;
    let by = heading.source as usize;
    ids::put_addresses(out, first, to, by, ids);
    let h = ids::header(ids);
    out[h] = heading.cos;
    out[h + 1] = flags;
}

// Writes two bytes from `at` on. Every caller has room for them.
fn put_word(out: &mut [u8], at: usize, value: usize)
    requires { at + 2 ≤ length out.old }
    ensures { out.new ≡ written out.old at (high value ∷ low value ∷ []) }
{
    out[at] = (value / 256 % 256) as u8;
    out[at + 1] = (value % 256) as u8;
}

// Writes the field from `at` on: the streamID with S, else the PDU length with E. A continuation has none.
pub fn put_field(out: &mut [u8], at: usize, first: bool, last: bool, stream: u16, size: usize)
    requires { at + 2 ≤ length out.old }
    ensures { out.new ≡ written out.old at (field_of first last stream size) }
{
    if first {
        put_word(out, at, stream as usize);
        return;
    }
    if last {
        put_word(out, at, size);
        return;
    }
}
