// The fields of types 9 and 11, read from a packet at the width of the endpoint. No state.
#![tactic(auto)]

ghost use Rattle.std.specs.Prelude.{◌≡◌, ◌+◌, ◌<◌, ◌≤◌, length};
ghost use Rattle.wire.specs.Packet.{header, id_bytes};
ghost use Rattle.wire.specs.Type9.{flow_of};
ghost use Rattle.wire.specs.Type11.{message_of};
ghost use Rattle.wire.specs.Inside.{data_from, stream_head};

use wire::{Flow, MessageSegment, StreamHead};

// Where the data of a type 9 packet begin: S or E is set where its flags are 64 or more, and then a field of two bytes comes before them.
fn data_from(flags: usize, ids: usize) -> usize
    requires { ids ≤ 2 }
    ensures { result ≡ data_from ids flags }
{
    if flags < 64 {
        return ids::header(ids) + 2;
    }
    ids::header(ids) + 4
}

// Who sent a packet, at which priority, under which class of service.
fn flow_at(packet: &[u8], ids: usize) -> Flow
    requires { (1 ≤ ids) × (ids ≤ 2) × (header ids + 2 ≤ length packet.now) }
    ensures { result ≡ flow_of ids packet.now }
{
    Flow {
        source: ids::id_at(packet, 1 + ids, ids),
        priority: lists::wide(packet[0]) / 64,
        cos: lists::wide(packet[ids::header(ids)]),
    }
}

// What is read of a type 9 packet whose IDs have so many bytes.
fn stream_at(packet: &[u8], ids: usize) -> StreamHead
    requires { (1 ≤ ids) × (ids ≤ 2) × (header ids + 2 ≤ length packet.now) }
    ensures { (result ≡ stream_head ids packet.now) × (result.flags < 256) }
{
    let flags = lists::wide(packet[ids::header(ids) + 1]);
    StreamHead {
        flags,
        from: data_from(flags, ids),
        flow: flow_at(packet, ids),
    }
}

// What is read of a type 9 packet. Every caller has found that it has its head. The width parts here, so that each side has its places as constants
// (docs/PERFORMANCE.md).
pub fn stream_of(packet: &[u8], narrow: usize) -> StreamHead
    requires { header (id_bytes narrow) + 2 ≤ length packet.now }
    ensures { (result ≡ stream_head (id_bytes narrow) packet.now) × (result.flags < 256) }
{
    if narrow == 0 {
        return stream_at(packet, 2);
    }
    stream_at(packet, 1)
}

// The fields of a type 11 packet whose IDs have so many bytes.
fn message_at(packet: &[u8], ids: usize) -> MessageSegment
    requires { (1 ≤ ids) × (ids ≤ 2) × (header ids + 2 ≤ length packet.now) }
    ensures { result ≡ message_of ids packet.now }
{
    let h = ids::header(ids);
    let sizes = lists::wide(packet[h]);
    let names = lists::wide(packet[h + 1]);
    MessageSegment {
        source: ids::id_at(packet, 1 + ids, ids),
        letter: names / 64,
        mbox: names / 16 % 4,
        msglen: sizes / 16,
        ssize: sizes % 16,
        msgseg: names % 16,
        raw: packet.len() - (h + 2),
    }
}

// The fields of a type 11 packet. Every caller has found that it has its head. The width parts here too.
pub fn message_of(packet: &[u8], narrow: usize) -> MessageSegment
    requires { header (id_bytes narrow) + 2 ≤ length packet.now }
    ensures { result ≡ message_of (id_bytes narrow) packet.now }
{
    if narrow == 0 {
        return message_at(packet, 2);
    }
    message_at(packet, 1)
}
