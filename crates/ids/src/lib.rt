// The IDs of a packet, each of `ids` bytes, 2 or 1: read, written, and too wide. No state.
#![tactic(auto)]

ghost use Rattle.std.specs.Prelude.{◌≡◌, ◌+◌, ◌≤◌, [], length};
ghost use Rattle.lists.specs.Bytes.{number, in_bytes, written};
ghost use Rattle.wire.specs.Packet.{too_wide, header as headerOf, addressed};

// The bytes of the widest ID.
pub const WIDEST: usize = 2;

// Whether IDs of 8 bits are chosen and this one is over 255.
#[tactic(auto, unfolding(wire::specs::Packet::too_wide))]
pub fn too_wide(narrow: usize, id: u16) -> bool
    ensures { result ≡ too_wide narrow id }
{
    narrow != 0 && 255 < id
}

// Where the fields of a type begin: behind byte 0 and two IDs.
pub fn header(ids: usize) -> usize
    requires { ids ≤ 2 }
    ensures { result ≡ headerOf ids }
{
    1 + 2 * ids
}

// The ID from `at` on. Every caller has tested the length.
pub fn id_at(packet: &[u8], at: usize, ids: usize) -> usize
    requires { (1 ≤ ids) × (ids ≤ 2) × (at + ids ≤ length packet.now) }
    ensures { result ≡ number ids packet.now at }
{
    if ids == 1 {
        usize::from(packet[at])
    } else {
        lists::word_at(packet, at)
    }
}

// Writes an ID from `at` on, the most significant byte first; where it has one byte, that takes the place of both stores. Every caller has room for it.
pub fn put_id(out: &mut [u8], at: usize, id: usize, ids: usize)
    requires { (1 ≤ ids) × (ids ≤ 2) × (at + ids ≤ length out.old) }
    ensures { out.new ≡ written out.old at (in_bytes ids id) }
{
    out[at] = (id / 256 % 256) as u8;
    out[at + (ids - 1)] = (id % 256) as u8;
}

// Writes what every packet begins with: byte 0, its destination ID and its source ID. Every caller has room for them.
pub fn put_addresses(out: &mut [u8], first: u8, destination: usize, source: usize, ids: usize)
    requires { (1 ≤ ids) × (ids ≤ 2) × (headerOf ids ≤ length out.old) }
    ensures { out.new ≡ written out.old 0 (addressed ids first destination source []) }
{
    out[0] = first;
    put_id(out, 1, destination, ids);
    put_id(out, 1 + ids, source, ids);
}
