// Reading one packet: the table, what it leaves, and rows 19 and 12's test of everything lent. packets is the code that reads.
#![tactic(auto)]

ghost use Rattle.std.specs.Prelude.{◌≡◌, false, length};
ghost use Rattle.refusals.specs.Numbers.{refused_by};
ghost use Rattle.contexts.specs.Words.{state_of, state_words};
ghost use Rattle.refusal19.specs.Refusal19.{named_by_19};
ghost use Rattle.reading.specs.Desk.{desk};
ghost use Rattle.reading.specs.Table.{wrong_sizes, lent_refusal};

use refusals::Refusal;

// Row 12 of the memories and the response buffer. The caller has found that 19 does not name the state.
fn wrong_memory(
    state: &[usize],
    stream_memory: &[u8],
    message_memory: &[u8],
    response: &[u8],
) -> bool
    requires { (length state.now ≡ state_words) × (named_by_19 (state_of state.now) ≡ false) }
    ensures { result ≡ wrong_sizes (desk state.now stream_memory.now message_memory.now response.now) }
{
    if stream_memory.len() != contexts::STREAM_CONTEXTS * contexts::room(state) {
        return true;
    }
    if message_memory.len() != message_rooms::MEMORY {
        return true;
    }
    if contexts::narrow(state) == 0 {
        return response.len() < responses::size(2);
    }
    response.len() < responses::size(1)
}

// What everything lent is refused with, rows 19 and 12. A run over many packets asks once.
pub fn lent_refusal(
    state: &[usize],
    stream_memory: &[u8],
    message_memory: &[u8],
    response: &[u8],
) -> Result<(), Refusal>
    ensures { refused_by result ≡ lent_refusal (desk state.now stream_memory.now message_memory.now response.now) }
{
    lent_state::state_refusal(state)?;
    if wrong_memory(state, stream_memory, message_memory, response) {
        return Err(Refusal::Buffer);
    }
    Ok(())
}
