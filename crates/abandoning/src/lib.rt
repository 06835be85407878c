// Abandoning a context of either kind. Asks nothing of its caller; `endpoint` hands these calls on.
#![tactic(auto)]

ghost use Rattle.std.specs.Prelude.{◌≡◌, ℕ, ◌<◌, Bool, length};
ghost use Rattle.refusals.specs.Numbers.{refused_by};
ghost use Rattle.answers.specs.Answers.{said_of_abandon};
ghost use Rattle.answers.specs.Stands.{stands};
ghost use Rattle.contexts.specs.State.{State, stream_contexts, stream_in, is_free_stream, with_stream, closed_stream};
ghost use Rattle.contexts.specs.State.{message_contexts, message_in, is_free_message, with_message, closed_message};
ghost use Rattle.contexts.specs.Words.{state_of, state_words};
ghost use Rattle.abandoning.specs.Abandoning.{context_refusal, abandon, AbandonStreamPromise, AbandonMessagePromise};

use answers::Abandoned;
use refusals::Refusal;

// What a call on context n of so many is refused with: 19 or 12, what a lent state is; 13 where n is past the last.
pub fn context_refusal(state: &[usize], n: usize, contexts: usize) -> Result<(), Refusal>
    ensures { refused_by result ≡ context_refusal state.now contexts n }
{
    lent_state::state_refusal(state)?;
    if contexts <= n {
        return Err(Refusal::NoContext);
    }
    Ok(())
}

// A kind of context: how many there are, whether one is free, and what closing it leaves.
trait Kind {
    ghost CONTEXTS: { ℕ };

    ghost free_in: { State → ℕ → Bool };

    ghost closed_in: { State → ℕ → State };

    const CONTEXTS: usize;

    fn is_free(state: &[usize], n: usize) -> bool
        requires { (n < CONTEXTS) × (length state.now ≡ state_words) }
        ensures { result ≡ free_in (state_of state.now) n };

    fn close(state: &mut [usize], n: usize)
        requires { (n < CONTEXTS) × (length state.old ≡ state_words) }
        ensures { state_of state.new ≡ closed_in (state_of state.old) n };
}

struct Streams;

impl Kind for Streams {
    ghost CONTEXTS = { stream_contexts };

    ghost free_in = { λ s n. is_free_stream (stream_in s n) };

    ghost closed_in = { λ s n. with_stream s n closed_stream };

    const CONTEXTS: usize = contexts::STREAM_CONTEXTS;

    fn is_free(state: &[usize], n: usize) -> bool {
        stream_contexts::stream_live(state, n) == 0
    }

    fn close(state: &mut [usize], n: usize) {
        stream_contexts::close_stream(state, n);
    }
}

struct Messages;

impl Kind for Messages {
    ghost CONTEXTS = { message_contexts };

    ghost free_in = { λ s n. is_free_message (message_in s n) };

    ghost closed_in = { λ s n. with_message s n closed_message };

    const CONTEXTS: usize = contexts::MESSAGE_CONTEXTS;

    fn is_free(state: &[usize], n: usize) -> bool {
        message_contexts::message_live(state, n) == 0
    }

    fn close(state: &mut [usize], n: usize) {
        message_contexts::close_message(state, n);
    }
}

// Abandons context n of that kind. A free one stays as it is.
fn abandon<K: Kind>(state: &mut [usize], n: usize) -> Result<Abandoned, Refusal>
    ensures { stands (said_of_abandon result) state.new ≡ abandon K.CONTEXTS K.free_in K.closed_in state.old n }
{
    context_refusal(state, n, K::CONTEXTS)?;
    if K::is_free(state, n) {
        return Ok(Abandoned::WasFree);
    }
    K::close(state, n);
    Ok(Abandoned::Closed)
}

// Abandons stream context n.
pub fn abandon_stream(state: &mut [usize], n: usize) -> Result<Abandoned, Refusal>
    ensures { AbandonStreamPromise state.old n result state.new }
{
    abandon::<Streams>(state, n)
}

// Abandons message context n.
pub fn abandon_message(state: &mut [usize], n: usize) -> Result<Abandoned, Refusal>
    ensures { AbandonMessagePromise state.old n result state.new }
{
    abandon::<Messages>(state, n)
}
