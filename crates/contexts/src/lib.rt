// The endpoint's state in words that the caller lends: where its words lie, what setup fixed, and a state made anew. The contexts are read and
// written by stream_contexts and message_contexts. No packet is known here. Every caller has tested that the state is WORDS words long.
#![tactic(auto)]

ghost use Rattle.std.specs.Prelude.{◌≡◌, length, replicate};
ghost use Rattle.contexts.specs.State.{fixed, fresh};
ghost use Rattle.contexts.specs.Words.{state_of, words_of, state_words};

use wire::{Flow, Setup};

// How many contexts of each kind there are.
pub const STREAM_CONTEXTS: usize = 16;

pub const MESSAGE_CONTEXTS: usize = 8;

// The words of the head, in their order: what setup fixed.
const OWN_ID: usize = 0;

const OWN_MTU: usize = 1;

const OWN_ROOM: usize = 2;

const OWN_NARROW: usize = 3;

const HEAD_WORDS: usize = 4;

// The words of a stream context, in their order.
pub const LIVE: usize = 0;

pub const SOURCE: usize = 1;

pub const PRIORITY: usize = 2;

pub const COS: usize = 3;

pub const STREAM: usize = 4;

pub const HELD: usize = 5;

pub const STREAM_WORDS: usize = 6;

// The words of a message context, in their order: LIVE and SOURCE, then these.
pub const LETTER: usize = 2;

pub const MBOX: usize = 3;

pub const MSGLEN: usize = 4;

pub const SSIZE: usize = 5;

pub const MARKS: usize = 6;

pub const LAST: usize = 7;

pub const MESSAGE_WORDS: usize = 8;

// The first word of the stream contexts and of the message contexts, and the words of a state.
pub const STREAMS: usize = HEAD_WORDS;

pub const MESSAGES: usize = STREAMS + STREAM_WORDS * STREAM_CONTEXTS;

pub const WORDS: usize = MESSAGES + MESSAGE_WORDS * MESSAGE_CONTEXTS;

// Live is 0 where the context is free; `held` bytes of the PDU are in its room.
#[derive(Clone, Copy)]
pub struct StreamContext {
    pub live: usize,
    pub flow: Flow,
    pub stream: usize,
    pub held: usize,
}

// Live is 0 where the context is free; `last` is the length of segment msglen once that has come.
#[derive(Clone, Copy)]
pub struct MessageContext {
    pub live: usize,
    pub source: usize,
    pub letter: usize,
    pub mbox: usize,
    pub msglen: usize,
    pub ssize: usize,
    pub marks: usize,
    pub last: usize,
}

// Our device ID.
pub fn device(state: &[usize]) -> usize
    requires { length state.now ≡ state_words }
    ensures { result ≡ (state_of state.now).setup.device }
{
    state[OWN_ID]
}

// The MTU.
pub fn mtu(state: &[usize]) -> usize
    requires { length state.now ≡ state_words }
    ensures { result ≡ (state_of state.now).setup.mtu }
{
    state[OWN_MTU]
}

// R, the bytes of a stream context's room.
pub fn room(state: &[usize]) -> usize
    requires { length state.now ≡ state_words }
    ensures { result ≡ (state_of state.now).setup.room }
{
    state[OWN_ROOM]
}

// The width of an ID: 0 is 16 bits, any other word is 8 bits.
pub fn narrow(state: &[usize]) -> usize
    requires { length state.now ≡ state_words }
    ensures { result ≡ (state_of state.now).setup.narrow }
{
    state[OWN_NARROW]
}

// A state of zeros.
pub fn clear(state: &mut [usize])
    ensures { state.new ≡ replicate (length state.old) 0 }
{
    state.fill(0);
}

// A state as setup makes it.
pub fn begin(state: &mut [usize], setup: Setup)
    requires { length state.old ≡ state_words }
    ensures { state.new ≡ words_of (fresh setup) }
{
    clear(state);
    state[OWN_ID] = setup.device as usize;
    state[OWN_MTU] = setup.mtu;
    state[OWN_ROOM] = setup.room;
    state[OWN_NARROW] = setup.narrow;
}
