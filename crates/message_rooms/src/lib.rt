// What a type 11 segment does to one context and its room: its data stored, the context kept or delivered, the response written.
#![tactic(auto)]

ghost use Rattle.std.specs.Prelude.{◌≡◌, false, ◌+◌, ◌<◌, ◌≤◌, ◌^◌, length};
ghost use Rattle.answers.specs.Answers.{said, said_by};
ghost use Rattle.responses.specs.Type13.{DONE, answered};
ghost use Rattle.contexts.specs.State.{ids_in, message_contexts};
ghost use Rattle.contexts.specs.Words.{state_of, state_words};
ghost use Rattle.rules.specs.Inside.{Sound};
ghost use Rattle.message_rooms.specs.Placing.{message_joining, message_placed};
ghost use Rattle.message_rooms.specs.Inside.{CanReply, reply_size, MessageReady, MessageFits, MessageKept, Replied};

use answers::{Answer, Reading};
use refusals::Numbered;
use wire::MessageSegment;

// The bytes of a message context's room, and of the memory that has one for each.
pub const ROOM: usize = 4096;

pub const MEMORY: usize = contexts::MESSAGE_CONTEXTS * ROOM;

// A refusal: its response is written, and nothing else. Every caller has a buffer for it, a packet with its head and a status.
pub fn refuse<R: Numbered>(
    state: &[usize],
    response: &mut [u8],
    packet: &[u8],
    refusal: R,
    status: u8,
) -> Reading<R>
    requires { CanReply state.now response.old packet.now × (status < 16) }
    ensures { Replied (state_of state.now) response.old packet.now (R.number_of refusal) status (said_by R.number_of result.answer) response.new
        × (result.dropped ≡ false) × (result.response ≡ reply_size (state_of state.now)) }
{
    let written = responses::respond(response, packet, contexts::narrow(state), status);
    answers::refusal(refusal, false, written)
}

// An accepted segment: its response is DONE; how long it is. Every caller has a buffer for it and a packet with its head.
pub fn done(state: &[usize], response: &mut [u8], packet: &[u8]) -> usize
    requires { CanReply state.now response.old packet.now }
    ensures { (result ≡ reply_size (state_of state.now))
        × (response.new ≡ answered (ids_in (state_of state.now)) response.old packet.now DONE) }
{
    responses::respond(response, packet, contexts::narrow(state), responses::DONE)
}

// Context n with these marks: delivered where all segments are in, else kept. So many bytes of response were written.
#[tactic(auto, using(crate::proofs::Laws::small))]
fn keep(
    state: &mut [usize],
    m: MessageSegment,
    n: usize,
    marks: usize,
    last: usize,
    written: usize,
) -> Reading
    requires n_lt_message_contexts { (n < message_contexts) × (length state.old ≡ state_words) }
    requires marks_bound { (marks < 2 ^ (m.msglen + 1)) × (last ≤ 256) × (m.msglen < 16) × (m.msgseg < 16) × (m.mbox < 4) }
    ensures { MessageKept (state_of state.old) m n marks last (said result.answer) (state_of state.new) × (result.dropped ≡ false) × (result.response ≡ written) }
{
    if marks::complete(marks as u16, m.msglen) {
        message_contexts::close_message(state, n);
        return Reading {
            answer: Ok(Answer::Message {
                context: n,
                source: m.source,
                letter: m.letter,
                mailbox: message_rules::mailbox_of(m),
                length: m.msglen * sizes::bytes_of(m.ssize) + last,
            }),
            dropped: false,
            response: written,
        };
    }
    message_contexts::keep_message(
        state, n, m.source, m.letter, m.mbox, m.msglen, m.ssize, marks, last,
    );
    answers::holding(false, written)
}

// Segment k is stored at k ssize of room n: the part of the memory from there on is lent to the copying leaf.
// Every caller has tested the state, the buffers' sizes and rows 20 to 24.
#[tactic(auto, using(crate::proofs::Laws::small))]
pub fn place(
    state: &mut [usize],
    memory: &mut [u8],
    response: &mut [u8],
    packet: &[u8],
    m: MessageSegment,
    n: usize,
    marks: usize,
    last: usize,
) -> Reading
    requires message_ready { MessageReady state.old memory.old response.old packet.now m }
    requires sound { Sound m }
    requires message_fits { MessageFits m n marks last }
    ensures { (message_joining (said result.answer) (state_of state.new) memory.new response.new
        ≡ message_placed (state_of state.old) memory.old response.old packet.now m n marks last)
        × (result.dropped ≡ false) × (result.response ≡ reply_size (state_of state.old)) }
{
    let size = sizes::bytes_of(m.ssize);
    let with_this = marks::with_mark(marks, m.msgseg);
    let last_with_this = message_rules::last_with(m, last);
    lists::store(
        memory,
        n * ROOM + m.msgseg * size,
        &packet[packet.len() - m.raw..],
    );
    let written = done(state, response, packet);
    keep(state, m, n, with_this, last_with_this, written)
}
