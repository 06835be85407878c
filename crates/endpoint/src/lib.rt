// The endpoint's public calls: setup, reading a packet, asking after a context, abandoning it, rooms. None asks anything of its caller.
#![tactic(auto)]

ghost use Rattle.reading.specs.Desk.{desk};
ghost use Rattle.reading.specs.Table.{lent};
ghost use Rattle.reading.specs.Read.{ReadPromise};
ghost use Rattle.endpoint.specs.Calls.{SetupPromise, LengthPromise};

pub use abandoning::{abandon_message, abandon_stream};
use answers::Reading;
pub use asking::{message_context, stream_context};
pub use refusals::Refusal;
pub use room_parts::{message_room, stream_room};
pub use wire::Setup;

// The words that a state needs.
pub fn state_length() -> usize
    ensures { LengthPromise result }
{
    contexts::WORDS
}

// Makes a state for a device ID, an MTU, rooms of R bytes and a width of IDs.
pub fn setup(state: &mut [usize], settings: Setup) -> Result<(), Refusal>
    ensures { SetupPromise state.old settings result state.new }
{
    if state.len() != contexts::WORDS {
        return Err(Refusal::Buffer);
    }
    if ids::too_wide(settings.narrow, settings.device) {
        contexts::clear(state);
        return Err(Refusal::WideId);
    }
    if sizes::bad_mtu(settings.mtu) {
        contexts::clear(state);
        return Err(Refusal::Mtu);
    }
    if bad_streams::bad_room(settings.mtu, settings.room) {
        contexts::clear(state);
        return Err(Refusal::State);
    }
    contexts::begin(state, settings);
    Ok(())
}

// Reads one packet.
pub fn read(
    state: &mut [usize],
    stream_memory: &mut [u8],
    message_memory: &mut [u8],
    response: &mut [u8],
    packet: &[u8],
) -> Reading
    ensures { ReadPromise (lent (desk state.old stream_memory.old message_memory.old response.old) packet.now)
        result (desk state.new stream_memory.new message_memory.new response.new) }
{
    packets::read(state, stream_memory, message_memory, response, packet)
}
