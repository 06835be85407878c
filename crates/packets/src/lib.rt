// One packet read: its head, then the step of its type. For a burst the state and the memories are tested before; read tests them itself.
#![tactic(auto)]

ghost use Rattle.reading.specs.Desk.{desk};
ghost use Rattle.reading.specs.Table.{lent};
ghost use Rattle.reading.specs.Read.{ReadPromise};
ghost use Rattle.reading.specs.Inside.{ReadyToRead};

use answers::Reading;
use heads::PacketType;

// One packet. Every caller has tested the state and the memories; a run over many packets tests them once.
#[inline(always)]
pub fn step(
    state: &mut [usize],
    stream_memory: &mut [u8],
    message_memory: &mut [u8],
    response: &mut [u8],
    packet: &[u8],
) -> Reading
    requires { ReadyToRead (desk state.old stream_memory.old message_memory.old response.old) }
    ensures { ReadPromise (lent (desk state.old stream_memory.old message_memory.old response.old) packet.now)
        result (desk state.new stream_memory.new message_memory.new response.new) }
{
    match heads::head(packet, contexts::device(state), contexts::narrow(state)) {
        Ok(PacketType::DataStreaming) => stream_step::step(state, stream_memory, packet),
        Ok(PacketType::Message) => message_step::step(state, message_memory, response, packet),
        Err(refusal) => answers::refusal(refusal, false, 0),
    }
}

// Reads one packet: rows 19 and 12, then the step above. It stands open there, so that a packet that its head refuses waits for no call
// (docs/PERFORMANCE.md).
pub fn read(
    state: &mut [usize],
    stream_memory: &mut [u8],
    message_memory: &mut [u8],
    response: &mut [u8],
    packet: &[u8],
) -> Reading
    ensures { ReadPromise (lent (desk state.old stream_memory.old message_memory.old response.old) packet.now)
        result (desk state.new stream_memory.new message_memory.new response.new) }
{
    if let Err(refusal) = reading::lent_refusal(state, stream_memory, message_memory, response) {
        return answers::refusal(refusal, false, 0);
    }
    step(state, stream_memory, message_memory, response, packet)
}
