// A start or single, rows 6 and 7 passed: row 10, then the flow's own context or the lowest free one from its beginning.
#![tactic(auto)]

ghost use Rattle.std.specs.Prelude.{◌≡◌};
ghost use Rattle.answers.specs.Answers.{said};
ghost use Rattle.contexts.specs.Words.{state_of};
ghost use Rattle.stream_rooms.specs.Placing.{joining};
ghost use Rattle.stream_rooms.specs.Inside.{Ready, Fields, stream_for};
ghost use Rattle.streams.specs.Joining.{stepped};
ghost use Rattle.streams.specs.Inside.{BeginsPDU};

use answers::Reading;
use refusals::Refusal;
use wire::StreamHead;

// A start or single: the flow's own context from its beginning, else the lowest free one.
pub fn begin(
    state: &mut [usize],
    memory: &mut [u8],
    packet: &[u8],
    head: StreamHead,
    found: Option<usize>,
    count: usize,
) -> Reading
    requires ready { Ready state.old memory.old packet.now (stream_for state.old packet.now) }
    requires fields { (Fields state.old packet.now head) × BeginsPDU (state_of state.old) (stream_for state.old packet.now) found count }
    ensures { (joining (said result.answer) result.dropped (state_of state.new) memory.new
        ≡ stepped (state_of state.old) memory.old packet.now (stream_for state.old packet.now)) × (result.response ≡ 0) }
{
    if let Some(own) = found {
        return placing::begin_room(state, memory, packet, head, own, count, true);
    }
    if let Some(free) = finding::free_stream(state) {
        return placing::begin_room(state, memory, packet, head, free, count, false);
    }
    answers::refusal(Refusal::StreamsFull, false, 0)
}
