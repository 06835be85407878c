// Where a segment of a message of several goes: rows 23 to 25, and the context that they leave.
#![tactic(auto)]

ghost use Rattle.std.specs.Prelude.{◌≡◌, ◌<◌, ◌≤◌};
ghost use Rattle.refusals.specs.Numbers.{row_number};
ghost use Rattle.contexts.specs.State.{message_context, message_contexts};
ghost use Rattle.contexts.specs.Words.{state_of};
ghost use Rattle.messages.specs.Inside.{OfSeveral, Chooses, refusal_status};

use messages::Chosen;
use refusals::Refusal;
use wire::MessageSegment;

// One more segment of the open message in context `found`: the one place that asks whether it is already marked.
fn choose_open(state: &[usize], m: MessageSegment, found: usize) -> Result<Chosen, Refusal>
    requires of_several { OfSeveral state.now m }
    requires found_lt_message_contexts { (found < message_contexts) × (found ≡ message_context (state_of state.now) m.source m.letter m.mbox) }
    ensures { Chooses (state_of state.now) m result }
{
    let c = message_contexts::message_at(state, found);
    if c.msglen != m.msglen {
        return Err(Refusal::OtherMessage);
    }
    if c.ssize != m.ssize {
        return Err(Refusal::OtherMessage);
    }
    if marks::marked(c.marks as u16, m.msgseg) {
        return Err(Refusal::Twice);
    }
    Ok(Chosen {
        n: found,
        marks: c.marks,
        last: c.last,
    })
}

// The first-come segment of a new message: the lowest free context.
fn choose_new(state: &[usize], m: MessageSegment) -> Result<Chosen, Refusal>
    requires of_several { OfSeveral state.now m }
    requires message_contexts_bound { message_contexts ≤ message_context (state_of state.now) m.source m.letter m.mbox }
    ensures { Chooses (state_of state.now) m result }
{
    let Some(n) = finding::free_message(state) else {
        return Err(Refusal::MessagesFull);
    };
    Ok(Chosen {
        n,
        marks: 0,
        last: 0,
    })
}

// Rows 23 to 25, and the context that they leave.
pub fn choose(state: &[usize], m: MessageSegment) -> Result<Chosen, Refusal>
    requires { OfSeveral state.now m }
    ensures { Chooses (state_of state.now) m result }
{
    match finding::find_message(state, m.source, m.letter, m.mbox) {
        Some(found) => choose_open(state, m, found),
        None => choose_new(state, m),
    }
}

// The status that a refusal by rows 23 to 25 writes.
#[tactic(auto, using(refusals::proofs::Back::number_once), unfolding(messages::specs::Inside::refusal_status))]
pub fn status_of(refusal: Refusal) -> u8
    ensures { result ≡ refusal_status (row_number refusal) }
{
    match refusal {
        Refusal::MessagesFull => responses::RETRY,
        _ => responses::ERROR,
    }
}
