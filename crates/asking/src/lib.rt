// Asking after a context of either kind: which are open, whose they are, and how much they hold. Nothing changes. Asks nothing of its caller;
// `endpoint` hands these calls on.
#![tactic(auto)]

ghost use Rattle.asking.specs.Asking.{StreamContextPromise, MessageContextPromise};

use answers::{UnfinishedMessage, UnfinishedPdu};
use refusals::Refusal;

// What stream context n holds.
pub fn stream_context(state: &[usize], n: usize) -> Result<Option<UnfinishedPdu>, Refusal>
    ensures { StreamContextPromise state.now n result }
{
    abandoning::context_refusal(state, n, contexts::STREAM_CONTEXTS)?;
    let c = stream_contexts::stream_at(state, n);
    if c.live == 0 {
        return Ok(None);
    }
    Ok(Some(UnfinishedPdu {
        flow: c.flow,
        stream: c.stream,
        held: c.held,
    }))
}

// What message context n holds.
pub fn message_context(state: &[usize], n: usize) -> Result<Option<UnfinishedMessage>, Refusal>
    ensures { MessageContextPromise state.now n result }
{
    abandoning::context_refusal(state, n, contexts::MESSAGE_CONTEXTS)?;
    let m = message_contexts::message_at(state, n);
    if m.live == 0 {
        return Ok(None);
    }
    Ok(Some(UnfinishedMessage {
        source: m.source,
        letter: m.letter,
        mbox: m.mbox,
        msglen: m.msglen,
        size: sizes::bytes_of(m.ssize),
        marks: m.marks,
        last: m.last,
    }))
}
