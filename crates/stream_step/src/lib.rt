// Type 9 packets from row 6 of the refusal table on, for a state that 19 does not name: rows 6 and 7, then by kind.
#![tactic(auto)]

ghost use Rattle.std.specs.Prelude.{◌≡◌};
ghost use Rattle.answers.specs.Answers.{said};
ghost use Rattle.contexts.specs.Words.{state_of};
ghost use Rattle.stream_rooms.specs.Placing.{joining};
ghost use Rattle.stream_rooms.specs.Inside.{Ready, stream_for};
ghost use Rattle.streams.specs.Joining.{stepped};

use answers::Reading;
use refusals::Refusal;

// A type 9 packet from row 6 on. Every caller has tested the state, the memory's size and the packet's head.
pub fn step(state: &mut [usize], memory: &mut [u8], packet: &[u8]) -> Reading
    requires { Ready state.old memory.old packet.now (stream_for state.old packet.now) }
    ensures { (joining (said result.answer) result.dropped (state_of state.new) memory.new
        ≡ stepped (state_of state.old) memory.old packet.now (stream_for state.old packet.now)) × (result.response ≡ 0) }
{
    let head = fields::stream_of(packet, contexts::narrow(state));
    let found = finding::find_stream(state, head.flow);
    let raw = packet.len() - head.from;
    if stream_rules::is_wrong_form(raw, head.flags) {
        return stream_rooms::refused_closing(state, found, Refusal::Form);
    }
    let count = sizes::data_length(raw, head.flags);
    if stream_rules::is_wrong_size(head.flags, count, contexts::mtu(state)) {
        return stream_rooms::refused_closing(state, found, Refusal::Size);
    }
    if wire::bit(head.flags, 128) {
        return beginning::begin(state, memory, packet, head, found, count);
    }
    continuing::go_on(state, memory, packet, head, found, count)
}
