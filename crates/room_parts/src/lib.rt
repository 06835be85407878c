// The room that a caller fetches, as a part of its own memory. Asks nothing of its caller; `endpoint` hands these calls on.
#![tactic(auto)]

ghost use Rattle.std.specs.Prelude.{◌≤◌, length};
ghost use Rattle.contexts.specs.State.{stream_contexts};
ghost use Rattle.room_parts.specs.Parts.{StreamRoomPromise, MessageRoomPromise, room_part, IsPart};

// The first l bytes of room n of a memory of so many rooms, or an empty part. Every caller knows the sizes to be small.
fn room_part<'a>(memory: &'a [u8], rooms: usize, room: usize, n: usize, l: usize) -> &'a [u8]
    requires { (rooms ≤ stream_contexts) × (room ≤ 65536) }
    ensures { IsPart memory.entry (room_part rooms room (length memory.now) n l) result }
{
    if lent_state::has_room(rooms, room, memory.len(), n, l) {
        let at = n * room;
        let end = at + l;
        return &memory[at..end];
    }
    &memory[0..0]
}

// The first l bytes of the room of stream context n, as a part of the caller's own memory; an empty part where there is none.
pub fn stream_room<'a>(state: &[usize], memory: &'a [u8], n: usize, l: usize) -> &'a [u8]
    ensures { StreamRoomPromise state.now memory.entry n l result }
{
    match lent_state::state_refusal(state) {
        Ok(()) => room_part(
            memory,
            contexts::STREAM_CONTEXTS,
            contexts::room(state),
            n,
            l,
        ),
        Err(_) => &memory[0..0],
    }
}

// The same of message context n.
pub fn message_room<'a>(state: &[usize], memory: &'a [u8], n: usize, l: usize) -> &'a [u8]
    ensures { MessageRoomPromise state.now memory.entry n l result }
{
    match lent_state::state_refusal(state) {
        Ok(()) => room_part(
            memory,
            contexts::MESSAGE_CONTEXTS,
            message_rooms::ROOM,
            n,
            l,
        ),
        Err(_) => &memory[0..0],
    }
}
