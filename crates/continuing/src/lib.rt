// A continuation or an end, rows 6 and 7 passed: rows 8 and 9, then behind what the flow's context holds.
#![tactic(auto)]

ghost use Rattle.std.specs.Prelude.{◌≡◌, Some};
ghost use Rattle.answers.specs.Answers.{said};
ghost use Rattle.contexts.specs.Words.{state_of};
ghost use Rattle.stream_rooms.specs.Placing.{joining};
ghost use Rattle.stream_rooms.specs.Inside.{Ready, Fields, stream_for};
ghost use Rattle.streams.specs.Joining.{stepped};
ghost use Rattle.streams.specs.Inside.{ContinuesPDU};

use answers::Reading;
use refusals::Refusal;
use wire::StreamHead;

// A continuation or end, in the flow's own context: row 9, then an end by its length, a continuation behind what the context holds.
fn go_on_in(
    state: &mut [usize],
    memory: &mut [u8],
    packet: &[u8],
    head: StreamHead,
    n: usize,
    count: usize,
) -> Reading
    requires ready { Ready state.old memory.old packet.now (stream_for state.old packet.now) }
    requires fields { (Fields state.old packet.now head) × ContinuesPDU (state_of state.old) (stream_for state.old packet.now) (Some n) count }
    ensures { (joining (said result.answer) result.dropped (state_of state.new) memory.new
        ≡ stepped (state_of state.old) memory.old packet.now (stream_for state.old packet.now)) × (result.response ≡ 0) }
{
    let held = stream_contexts::held_of(state, n);
    let total = held + count;
    if contexts::room(state) < total {
        return stream_rooms::refused_closing(state, Some(n), Refusal::PastRoom);
    }
    if wire::bit(head.flags, 64) {
        return ending::end(state, memory, packet, head, n, held, count);
    }
    placing::hold_room(state, memory, packet, head, n, held, count)
}

// A continuation or end: row 8, then in the flow's own context.
pub fn go_on(
    state: &mut [usize],
    memory: &mut [u8],
    packet: &[u8],
    head: StreamHead,
    found: Option<usize>,
    count: usize,
) -> Reading
    requires ready { Ready state.old memory.old packet.now (stream_for state.old packet.now) }
    requires fields { (Fields state.old packet.now head) × ContinuesPDU (state_of state.old) (stream_for state.old packet.now) found count }
    ensures { (joining (said result.answer) result.dropped (state_of state.new) memory.new
        ≡ stepped (state_of state.old) memory.old packet.now (stream_for state.old packet.now)) × (result.response ≡ 0) }
{
    let Some(n) = found else {
        return answers::refusal(Refusal::NotOpen, false, 0);
    };
    go_on_in(state, memory, packet, head, n, count)
}
