// The walks over the contexts: the flow's open one, the message's, the lowest free one of each kind. Every caller has tested that the state is
// one.
#![tactic(auto)]

ghost use Rattle.std.specs.Prelude.{◌≡◌, ◌<◌, length};
ghost use Rattle.lists.specs.First.{IsFound};
ghost use Rattle.contexts.specs.State.{stream_contexts, message_contexts, stream_in, is_of_flow, flow_context, free_stream, message_context, free_message};
ghost use Rattle.contexts.specs.Words.{state_of, state_words};

use wire::Flow;

// Whether context n is the flow's open one. The flow is asked first: it sets most contexts aside, open or not.
fn is_of_flow(state: &[usize], n: usize, flow: Flow) -> bool
    requires { (n < stream_contexts) × (length state.now ≡ state_words) }
    ensures { result ≡ is_of_flow flow (stream_in (state_of state.now) n) }
{
    if wire::same_flow(stream_contexts::stream_flow(state, n), flow) {
        return stream_contexts::stream_live(state, n) != 0;
    }
    false
}

// The flow's open context, if it has one.
pub fn find_stream(state: &[usize], flow: Flow) -> Option<usize>
    requires { length state.now ≡ state_words }
    ensures { IsFound stream_contexts (flow_context (state_of state.now) flow) result }
{
    lists::lowest(contexts::STREAM_CONTEXTS, |n| is_of_flow(state, n, flow))
}

// The lowest free stream context, if one is free.
pub fn free_stream(state: &[usize]) -> Option<usize>
    requires { length state.now ≡ state_words }
    ensures { IsFound stream_contexts (free_stream (state_of state.now)) result }
{
    lists::lowest(
        contexts::STREAM_CONTEXTS,
        |n| stream_contexts::stream_live(state, n) == 0,
    )
}

// The open context of the message, if it has one.
pub fn find_message(state: &[usize], source: usize, letter: usize, mbox: usize) -> Option<usize>
    requires { length state.now ≡ state_words }
    ensures { IsFound message_contexts (message_context (state_of state.now) source letter mbox) result }
{
    lists::lowest(
        contexts::MESSAGE_CONTEXTS,
        |n| message_contexts::is_of_message(state, n, source, letter, mbox),
    )
}

// The lowest free message context, if one is free.
pub fn free_message(state: &[usize]) -> Option<usize>
    requires { length state.now ≡ state_words }
    ensures { IsFound message_contexts (free_message (state_of state.now)) result }
{
    lists::lowest(
        contexts::MESSAGE_CONTEXTS,
        |n| message_contexts::message_live(state, n) == 0,
    )
}
