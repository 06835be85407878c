// The message contexts in the words of the state: one at a time as a small struct by value, or what is asked of it. Every caller has tested
// that the state is as long as a state, and that a context's number is one.
#![tactic(auto)]

ghost use Rattle.std.specs.Prelude.{◌≡◌, ◌<◌, length};
ghost use Rattle.contexts.specs.State.{message_contexts, closed_message, open_message};
ghost use Rattle.contexts.specs.State.{message_in, with_message, is_of_message};
ghost use Rattle.contexts.specs.Words.{state_of, state_words};

use contexts::MessageContext;

// Message context n.
pub fn message_at(state: &[usize], n: usize) -> MessageContext
    requires { (n < message_contexts) × (length state.now ≡ state_words) }
    ensures { result ≡ message_in (state_of state.now) n }
{
    let at = contexts::MESSAGES + contexts::MESSAGE_WORDS * n;
    MessageContext {
        live: state[at + contexts::LIVE],
        source: state[at + contexts::SOURCE],
        letter: state[at + contexts::LETTER],
        mbox: state[at + contexts::MBOX],
        msglen: state[at + contexts::MSGLEN],
        ssize: state[at + contexts::SSIZE],
        marks: state[at + contexts::MARKS],
        last: state[at + contexts::LAST],
    }
}

// Of message context n only whether it is open: 0 where it is free.
pub fn message_live(state: &[usize], n: usize) -> usize
    requires { (n < message_contexts) × (length state.now ≡ state_words) }
    ensures { result ≡ (message_in (state_of state.now) n).live }
{
    let at = contexts::MESSAGES + contexts::MESSAGE_WORDS * n;
    state[at + contexts::LIVE]
}

// Whether message context n is the open one of that message. Live is asked last: the other words set most contexts aside, open or not.
pub fn is_of_message(state: &[usize], n: usize, source: usize, letter: usize, mbox: usize) -> bool
    requires { (n < message_contexts) × (length state.now ≡ state_words) }
    ensures { result ≡ is_of_message source letter mbox (message_in (state_of state.now) n) }
{
    let at = contexts::MESSAGES + contexts::MESSAGE_WORDS * n;
    if state[at + contexts::SOURCE] != source {
        return false;
    }
    if state[at + contexts::LETTER] != letter {
        return false;
    }
    if state[at + contexts::MBOX] != mbox {
        return false;
    }
    state[at + contexts::LIVE] != 0
}

// Puts c in the place of message context n. Only the functions below write a context.
fn put_message(state: &mut [usize], n: usize, c: MessageContext)
    requires { (n < message_contexts) × (length state.old ≡ state_words) }
    ensures { state_of state.new ≡ with_message (state_of state.old) n c }
{
    let at = contexts::MESSAGES + contexts::MESSAGE_WORDS * n;
    state[at + contexts::LIVE] = c.live;
    state[at + contexts::SOURCE] = c.source;
    state[at + contexts::LETTER] = c.letter;
    state[at + contexts::MBOX] = c.mbox;
    state[at + contexts::MSGLEN] = c.msglen;
    state[at + contexts::SSIZE] = c.ssize;
    state[at + contexts::MARKS] = c.marks;
    state[at + contexts::LAST] = c.last;
}

// Message context n is open, with these marks and the length of its last segment once that has come.
pub fn keep_message(
    state: &mut [usize],
    n: usize,
    source: usize,
    letter: usize,
    mbox: usize,
    msglen: usize,
    ssize: usize,
    marks: usize,
    last: usize,
)
    requires { (n < message_contexts) × (length state.old ≡ state_words) }
    ensures { state_of state.new ≡ with_message (state_of state.old) n (open_message source letter mbox msglen ssize marks last) }
{
    put_message(
        state,
        n,
        MessageContext {
            live: 1,
            source,
            letter,
            mbox,
            msglen,
            ssize,
            marks,
            last,
        },
    );
}

// Message context n is closed: all its fields are 0.
pub fn close_message(state: &mut [usize], n: usize)
    requires { (n < message_contexts) × (length state.old ≡ state_words) }
    ensures { state_of state.new ≡ with_message (state_of state.old) n closed_message }
{
    put_message(
        state,
        n,
        MessageContext {
            live: 0,
            source: 0,
            letter: 0,
            mbox: 0,
            msglen: 0,
            ssize: 0,
            marks: 0,
            last: 0,
        },
    );
}
