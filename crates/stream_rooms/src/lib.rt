// What a type 9 segment does to one context and its room: its data stored, the PDU delivered, the context closed.
#![tactic(auto)]

ghost use Rattle.std.specs.Prelude.{◌≡◌, IfSome, unwrap_or, ◌+◌, ◌*◌, ◌<◌, length};
ghost use Rattle.lists.specs.Bytes.{written};
ghost use Rattle.answers.specs.Answers.{said, said_by};
ghost use Rattle.contexts.specs.Words.{state_of, state_words};
ghost use Rattle.contexts.specs.State.{stream_contexts};
ghost use Rattle.stream_rooms.specs.Placing.{data_of};
ghost use Rattle.stream_rooms.specs.Inside.{Ready, Closing, Delivering, Fits, stream_for};

use answers::{Answer, Reading};
use refusals::Numbered;
use wire::Flow;

// A refusal that closes the flow's context, where it has one. Every caller has tested the state, and `found` is what was found.
pub fn refused_closing<R: Numbered>(
    state: &mut [usize],
    found: Option<usize>,
    refusal: R,
) -> Reading<R>
    requires { (length state.old ≡ state_words) × IfSome found (λ n. n < stream_contexts) }
    ensures { Closing (state_of state.old) (unwrap_or found stream_contexts) (R.number_of refusal) (said_by R.number_of result.answer) result.dropped (state_of state.new)
        × (result.response ≡ 0) }
{
    let Some(open) = found else {
        return answers::refusal(refusal, false, 0);
    };
    stream_contexts::close_stream(state, open);
    answers::refusal(refusal, true, 0)
}

// The PDU of context n is delivered, `total` bytes of it, and the context freed.
pub fn deliver(
    state: &mut [usize],
    n: usize,
    flow: Flow,
    stream: usize,
    total: usize,
    dropped: bool,
) -> Reading
    requires { (n < stream_contexts) × (length state.old ≡ state_words) }
    ensures { Delivering (state_of state.old) n flow stream total dropped (said result.answer) result.dropped (state_of state.new) × (result.response ≡ 0) }
{
    stream_contexts::close_stream(state, n);
    Reading {
        answer: Ok(Answer::Delivered {
            context: n,
            flow,
            stream,
            length: total,
        }),
        dropped,
        response: 0,
    }
}

// The segment's `count` bytes of data go into room n behind `base` bytes: the part of the memory from there on is lent to the copying leaf.
// Every caller has tested the state, the memory's size and that the data fit.
pub fn store_data(
    state: &[usize],
    memory: &mut [u8],
    packet: &[u8],
    from: usize,
    n: usize,
    base: usize,
    count: usize,
)
    requires ready { Ready state.now memory.old packet.now (stream_for state.now packet.now) }
    requires from_value { (from ≡ (stream_for state.now packet.now).from) × Fits (state_of state.now) (stream_for state.now packet.now) n base count }
    ensures { memory.new ≡ written memory.old (n * (state_of state.now).setup.room + base) (data_of packet.now (stream_for state.now packet.now)) }
{
    let to = from + count;
    lists::store(memory, n * contexts::room(state) + base, &packet[from..to]);
}
