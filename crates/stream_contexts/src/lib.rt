// The stream contexts in the words of the state: one at a time as a small struct by value, or the one word that is asked. Every caller has
// tested that the state is as long as a state, and that a context's number is one.
#![tactic(auto)]

ghost use Rattle.std.specs.Prelude.{◌≡◌, ◌<◌, length};
ghost use Rattle.contexts.specs.State.{stream_contexts, closed_stream, open_stream};
ghost use Rattle.contexts.specs.State.{stream_in, with_stream, holding};
ghost use Rattle.contexts.specs.Words.{state_of, state_words};

use contexts::StreamContext;
use wire::Flow;

// Stream context n.
pub fn stream_at(state: &[usize], n: usize) -> StreamContext
    requires { (n < stream_contexts) × (length state.now ≡ state_words) }
    ensures { result ≡ stream_in (state_of state.now) n }
{
    let at = contexts::STREAMS + contexts::STREAM_WORDS * n;
    let flow = stream_flow(state, n);
    StreamContext {
        live: state[at + contexts::LIVE],
        flow,
        stream: state[at + contexts::STREAM],
        held: state[at + contexts::HELD],
    }
}

// Of stream context n only whether it is open: 0 where it is free.
pub fn stream_live(state: &[usize], n: usize) -> usize
    requires { (n < stream_contexts) × (length state.now ≡ state_words) }
    ensures { result ≡ (stream_in (state_of state.now) n).live }
{
    let at = contexts::STREAMS + contexts::STREAM_WORDS * n;
    state[at + contexts::LIVE]
}

// Only its flow.
pub fn stream_flow(state: &[usize], n: usize) -> Flow
    requires { (n < stream_contexts) × (length state.now ≡ state_words) }
    ensures { result ≡ (stream_in (state_of state.now) n).flow }
{
    let at = contexts::STREAMS + contexts::STREAM_WORDS * n;
    Flow {
        source: state[at + contexts::SOURCE],
        priority: state[at + contexts::PRIORITY],
        cos: state[at + contexts::COS],
    }
}

// Only its streamID.
pub fn stream_of(state: &[usize], n: usize) -> usize
    requires { (n < stream_contexts) × (length state.now ≡ state_words) }
    ensures { result ≡ (stream_in (state_of state.now) n).stream }
{
    let at = contexts::STREAMS + contexts::STREAM_WORDS * n;
    state[at + contexts::STREAM]
}

// Only how many bytes of the PDU are in its room.
pub fn held_of(state: &[usize], n: usize) -> usize
    requires { (n < stream_contexts) × (length state.now ≡ state_words) }
    ensures { result ≡ (stream_in (state_of state.now) n).held }
{
    let at = contexts::STREAMS + contexts::STREAM_WORDS * n;
    state[at + contexts::HELD]
}

// Puts c in the place of stream context n. Only the functions below write a context: it is opened, kept and closed nowhere else.
fn put_stream(state: &mut [usize], n: usize, c: StreamContext)
    requires { (n < stream_contexts) × (length state.old ≡ state_words) }
    ensures { state_of state.new ≡ with_stream (state_of state.old) n c }
{
    let at = contexts::STREAMS + contexts::STREAM_WORDS * n;
    let flow = c.flow;
    state[at + contexts::LIVE] = c.live;
    state[at + contexts::SOURCE] = flow.source;
    state[at + contexts::PRIORITY] = flow.priority;
    state[at + contexts::COS] = flow.cos;
    state[at + contexts::STREAM] = c.stream;
    state[at + contexts::HELD] = c.held;
}

// Stream context n is open: `held` bytes of that flow's PDU are in its room.
pub fn keep_stream(state: &mut [usize], n: usize, flow: Flow, stream: usize, held: usize)
    requires { (n < stream_contexts) × (length state.old ≡ state_words) }
    ensures { state_of state.new ≡ with_stream (state_of state.old) n (open_stream flow stream held) }
{
    put_stream(
        state,
        n,
        StreamContext {
            live: 1,
            flow,
            stream,
            held,
        },
    );
}

// Stream context n stays open, now with `held` bytes: its flow and its streamID are left as they are. Live is written as 1 again: in a given
// state every number but 0 counts as open (row 19), and we write 1.
pub fn hold(state: &mut [usize], n: usize, held: usize)
    requires { (n < stream_contexts) × (length state.old ≡ state_words) }
    ensures { state_of state.new ≡ with_stream (state_of state.old) n (holding (stream_in (state_of state.old) n) held) }
{
    let at = contexts::STREAMS + contexts::STREAM_WORDS * n;
    state[at + contexts::LIVE] = 1;
    state[at + contexts::HELD] = held;
}

// Stream context n is closed: all its fields are 0.
pub fn close_stream(state: &mut [usize], n: usize)
    requires { (n < stream_contexts) × (length state.old ≡ state_words) }
    ensures { state_of state.new ≡ with_stream (state_of state.old) n closed_stream }
{
    let flow = Flow {
        source: 0,
        priority: 0,
        cos: 0,
    };
    put_stream(
        state,
        n,
        StreamContext {
            live: 0,
            flow,
            stream: 0,
            held: 0,
        },
    );
}
