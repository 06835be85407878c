// Rooms as places: an offset and a length in the caller's memory, for callers that keep their memory to themselves.
#![tactic(auto)]

ghost use Rattle.std.specs.Prelude.{◌≡◌, ◌≤◌};
ghost use Rattle.contexts.specs.State.{stream_contexts};
ghost use Rattle.room_parts.specs.Parts.{empty_part, room_part};
ghost use Rattle.c_places.specs.Places.{place_of, StreamPlacePromise, MessagePlacePromise};

// Where a part of a memory begins, and its bytes.
#[repr(C)]
#[derive(Clone, Copy)]
pub struct Place {
    pub offset: usize,
    pub length: usize,
}

// No part: an empty one at the memory's beginning.
fn nowhere() -> Place
    ensures { result ≡ place_of empty_part }
{
    Place {
        offset: 0,
        length: 0,
    }
}

// The first l bytes of room n of a memory of so many rooms and that size. Every caller knows the rooms to be small.
#[tactic(auto, unfolding(room_parts::specs::Parts::room_part))]
fn room_at(rooms: usize, room: usize, size: usize, n: usize, l: usize) -> Place
    requires { (rooms ≤ stream_contexts) × (room ≤ 65536) }
    ensures { result ≡ place_of (room_part rooms room size n l) }
{
    if lent_state::has_room(rooms, room, size, n, l) {
        return Place {
            offset: n * room,
            length: l,
        };
    }
    nowhere()
}

// The first l bytes of the room of stream context n, in a stream memory of that size.
pub fn stream_place(state: &[usize], size: usize, n: usize, l: usize) -> Place
    ensures { StreamPlacePromise state.now size n l result }
{
    if lent_state::state_refusal(state).is_err() {
        return nowhere();
    }
    room_at(contexts::STREAM_CONTEXTS, contexts::room(state), size, n, l)
}

// The same of message context n.
pub fn message_place(state: &[usize], size: usize, n: usize, l: usize) -> Place
    ensures { MessagePlacePromise state.now size n l result }
{
    if lent_state::state_refusal(state).is_err() {
        return nowhere();
    }
    room_at(contexts::MESSAGE_CONTEXTS, message_rooms::ROOM, size, n, l)
}
