// An end whose data fit behind what the flow's context holds: row 11, then the PDU is delivered.
#![tactic(auto)]

ghost use Rattle.std.specs.Prelude.{◌≡◌};
ghost use Rattle.answers.specs.Answers.{said};
ghost use Rattle.contexts.specs.Words.{state_of};
ghost use Rattle.stream_rooms.specs.Placing.{joining};
ghost use Rattle.stream_rooms.specs.Inside.{Ready, stream_for};
ghost use Rattle.streams.specs.Joining.{stepped};
ghost use Rattle.streams.specs.Inside.{EndsPDU};

use answers::Reading;
use refusals::Refusal;
use wire::StreamHead;

// An end whose data fit behind the `held` bytes of the flow's context.
pub fn end(
    state: &mut [usize],
    memory: &mut [u8],
    packet: &[u8],
    head: StreamHead,
    n: usize,
    held: usize,
    count: usize,
) -> Reading
    requires ready { Ready state.old memory.old packet.now (stream_for state.old packet.now) }
    requires from_value { (head.from ≡ (stream_for state.old packet.now).from) × (head.flow ≡ (stream_for state.old packet.now).flow) × EndsPDU (state_of state.old) (stream_for state.old packet.now) n held count }
    ensures { (joining (said result.answer) result.dropped (state_of state.new) memory.new
        ≡ stepped (state_of state.old) memory.old packet.now (stream_for state.old packet.now)) × (result.response ≡ 0) }
{
    if held + count != sizes::pdu_length(lists::word_at(packet, head.from - 2)) {
        return stream_rooms::refused_closing(state, Some(n), Refusal::EndLength);
    }
    placing::end_room(state, memory, packet, head, n, held, count)
}
