// A segment's data go into a room, and its PDU is kept or delivered: a PDU begun, gone on with, ended.
#![tactic(auto)]

ghost use Rattle.std.specs.Prelude.{◌≡◌, true, false};
ghost use Rattle.answers.specs.Answers.{said};
ghost use Rattle.contexts.specs.Words.{state_of};
ghost use Rattle.contexts.specs.State.{stream_in};
ghost use Rattle.stream_rooms.specs.Placing.{joining, placed};
ghost use Rattle.stream_rooms.specs.Inside.{Ready, Fields, Fits, GoesOn, stream_for};

use answers::Reading;
use wire::StreamHead;

// A PDU begins in room n: a start is held there, a single delivered.
pub fn begin_room(
    state: &mut [usize],
    memory: &mut [u8],
    packet: &[u8],
    head: StreamHead,
    n: usize,
    count: usize,
    dropped: bool,
) -> Reading
    requires ready { Ready state.old memory.old packet.now (stream_for state.old packet.now) }
    requires fields { (Fields state.old packet.now head) × ((stream_for state.old packet.now).begins ≡ true) × Fits (state_of state.old) (stream_for state.old packet.now) n 0 count }
    ensures { (joining (said result.answer) result.dropped (state_of state.new) memory.new
        ≡ placed (state_of state.old) memory.old packet.now (stream_for state.old packet.now) n 0 (stream_for state.old packet.now).field dropped)
        × (result.response ≡ 0) }
{
    stream_rooms::store_data(state, memory, packet, head.from, n, 0, count);
    let stream = lists::word_at(packet, head.from - 2);
    if wire::bit(head.flags, 64) {
        return stream_rooms::deliver(state, n, head.flow, stream, count, dropped);
    }
    stream_contexts::keep_stream(state, n, head.flow, stream, count);
    answers::holding(dropped, 0)
}

// A continuation: its data go behind the `held` bytes that the PDU has, and the context, which is the flow's own, holds them too.
pub fn hold_room(
    state: &mut [usize],
    memory: &mut [u8],
    packet: &[u8],
    head: StreamHead,
    n: usize,
    held: usize,
    count: usize,
) -> Reading
    requires ready { Ready state.old memory.old packet.now (stream_for state.old packet.now) }
    requires from_value { (head.from ≡ (stream_for state.old packet.now).from) × GoesOn (state_of state.old) (stream_for state.old packet.now) n held count false }
    ensures { (joining (said result.answer) result.dropped (state_of state.new) memory.new
        ≡ placed (state_of state.old) memory.old packet.now (stream_for state.old packet.now) n held (stream_in (state_of state.old) n).stream false)
        × (result.response ≡ 0) }
{
    stream_rooms::store_data(state, memory, packet, head.from, n, held, count);
    stream_contexts::hold(state, n, held + count);
    answers::holding(false, 0)
}

// An end: the PDU is whole with its data, and delivered.
pub fn end_room(
    state: &mut [usize],
    memory: &mut [u8],
    packet: &[u8],
    head: StreamHead,
    n: usize,
    held: usize,
    count: usize,
) -> Reading
    requires ready { Ready state.old memory.old packet.now (stream_for state.old packet.now) }
    requires from_value { (head.from ≡ (stream_for state.old packet.now).from) × (head.flow ≡ (stream_for state.old packet.now).flow) × GoesOn (state_of state.old) (stream_for state.old packet.now) n held count true }
    ensures { (joining (said result.answer) result.dropped (state_of state.new) memory.new
        ≡ placed (state_of state.old) memory.old packet.now (stream_for state.old packet.now) n held (stream_in (state_of state.old) n).stream false)
        × (result.response ≡ 0) }
{
    stream_rooms::store_data(state, memory, packet, head.from, n, held, count);
    let stream = stream_contexts::stream_of(state, n);
    stream_rooms::deliver(state, n, head.flow, stream, held + count, false)
}
