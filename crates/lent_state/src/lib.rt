// What a lent state is refused with, before anything else is looked at: the test of 19 walks all contexts, so it stands in one place, and a run
// over many packets makes it once. And which rooms a lent memory has.
#![tactic(auto)]

ghost use Rattle.std.specs.Prelude.{◌≡◌, ◌≤◌, length};
ghost use Rattle.lists.specs.First.{any};
ghost use Rattle.refusals.specs.Numbers.{refused_by};
ghost use Rattle.contexts.specs.State.{stream_contexts};
ghost use Rattle.contexts.specs.Words.{state_of, state_words};
ghost use Rattle.refusal19.specs.Refusal19.{bad_stream, bad_message, named_by_19};
ghost use Rattle.lent_state.specs.Lent.{state_refusal, has_room};

use refusals::Refusal;

// Whether 19 names a stream context.
fn any_bad_stream(state: &[usize], room: usize) -> bool
    requires { length state.now ≡ state_words }
    ensures { result ≡ any (bad_stream room) (state_of state.now).streams }
{
    lists::lowest(contexts::STREAM_CONTEXTS, |n| {
        bad_streams::bad_stream(stream_contexts::stream_at(state, n), room)
    })
    .is_some()
}

// Whether 19 names a message context.
fn any_bad_message(state: &[usize]) -> bool
    requires { length state.now ≡ state_words }
    ensures { result ≡ any bad_message (state_of state.now).messages }
{
    lists::lowest(contexts::MESSAGE_CONTEXTS, |n| {
        bad_messages::bad_message(message_contexts::message_at(state, n))
    })
    .is_some()
}

// Whether refusal 19 names the state. The caller has tested its length.
fn named_by_19(state: &[usize]) -> bool
    requires { length state.now ≡ state_words }
    ensures { result ≡ named_by_19 (state_of state.now) }
{
    let m = contexts::mtu(state);
    let r = contexts::room(state);
    if sizes::bad_mtu(m) {
        return true;
    }
    if bad_streams::bad_room(m, r) {
        return true;
    }
    if any_bad_stream(state, r) {
        return true;
    }
    any_bad_message(state)
}

// What a lent state is refused with: 12 where the buffer is no state, or 19.
pub fn state_refusal(state: &[usize]) -> Result<(), Refusal>
    ensures { refused_by result ≡ state_refusal state.now }
{
    if state.len() != contexts::WORDS {
        return Err(Refusal::Buffer);
    }
    if named_by_19(state) {
        return Err(Refusal::State);
    }
    Ok(())
}

// Whether a memory of that size has so many rooms, n is one of them, and it holds l bytes. Every caller knows the rooms to be few and small.
pub fn has_room(rooms: usize, room: usize, size: usize, n: usize, l: usize) -> bool
    requires { (rooms ≤ stream_contexts) × (room ≤ 65536) }
    ensures { result ≡ has_room rooms room size n l }
{
    if size != rooms * room {
        return false;
    }
    if rooms <= n {
        return false;
    }
    l <= room
}
