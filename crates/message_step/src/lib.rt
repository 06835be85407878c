// Type 11 packets from row 20 of the refusal table on, for a state that 19 does not name: rows 20 to 22, then by the kind of message.
#![tactic(auto)]

ghost use Rattle.std.specs.Prelude.{◌≡◌, true, false};
ghost use Rattle.answers.specs.Answers.{said};
ghost use Rattle.wire.specs.Type11.{is_single};
ghost use Rattle.contexts.specs.Words.{state_of};
ghost use Rattle.rules.specs.Inside.{Sound};
ghost use Rattle.message_rooms.specs.Placing.{message_joining};
ghost use Rattle.message_rooms.specs.Inside.{message_for, reply_size, MessageReady};
ghost use Rattle.messages.specs.Joining.{message_stepped};

use answers::{Answer, Reading};
use refusals::Refusal;
use wire::MessageSegment;

// A single-segment message: the lowest free context, delivered at once.
#[tactic(auto, using(sizes::proofs::Laws::bytes_le))]
fn take_alone(
    state: &mut [usize],
    memory: &mut [u8],
    response: &mut [u8],
    packet: &[u8],
    m: MessageSegment,
) -> Reading
    requires message_ready { MessageReady state.old memory.old response.old packet.now m }
    requires sound { (Sound m) × (is_single m ≡ true) }
    ensures { (message_joining (said result.answer) (state_of state.new) memory.new response.new
        ≡ message_stepped (state_of state.old) memory.old response.old packet.now m)
        × (result.dropped ≡ false) × (result.response ≡ reply_size (state_of state.old)) }
{
    let Some(n) = finding::free_message(state) else {
        return message_rooms::refuse(
            state,
            response,
            packet,
            Refusal::MessagesFull,
            responses::RETRY,
        );
    };
    lists::store(
        memory,
        n * message_rooms::ROOM,
        &packet[packet.len() - m.raw..],
    );
    let written = message_rooms::done(state, response, packet);
    // it was free, but a given state may have other words than 0 in it
    message_contexts::close_message(state, n);
    Reading {
        answer: Ok(Answer::Message {
            context: n,
            source: m.source,
            letter: m.letter,
            mailbox: message_rules::mailbox_of(m),
            length: m.raw,
        }),
        dropped: false,
        response: written,
    }
}

// A type 11 packet, read into `m`: rows 20 to 22, then by the kind of message.
#[tactic(auto, using(rules::proofs::Laws::sound, messages::proofs::Laws::status_small))]
fn take(
    state: &mut [usize],
    memory: &mut [u8],
    response: &mut [u8],
    packet: &[u8],
    m: MessageSegment,
) -> Reading
    requires { MessageReady state.old memory.old response.old packet.now m }
    ensures { (message_joining (said result.answer) (state_of state.new) memory.new response.new
        ≡ message_stepped (state_of state.old) memory.old response.old packet.now m)
        × (result.dropped ≡ false) × (result.response ≡ reply_size (state_of state.old)) }
{
    if let Err(refusal) = message_rules::judge(m) {
        return message_rooms::refuse(state, response, packet, refusal, responses::ERROR);
    }
    if m.msglen == 0 {
        return take_alone(state, memory, response, packet, m);
    }
    match choosing::choose(state, m) {
        Ok(c) => message_rooms::place(state, memory, response, packet, m, c.n, c.marks, c.last),
        Err(refusal) => {
            let status = choosing::status_of(refusal);
            message_rooms::refuse(state, response, packet, refusal, status)
        }
    }
}

// A type 11 packet from row 20 on. Every caller has tested the state, the buffers' sizes and the packet's head.
pub fn step(state: &mut [usize], memory: &mut [u8], response: &mut [u8], packet: &[u8]) -> Reading
    requires { MessageReady state.old memory.old response.old packet.now (message_for state.old packet.now) }
    ensures { (message_joining (said result.answer) (state_of state.new) memory.new response.new
        ≡ message_stepped (state_of state.old) memory.old response.old packet.now (message_for state.old packet.now))
        × (result.dropped ≡ false) × (result.response ≡ reply_size (state_of state.old)) }
{
    let m = fields::message_of(packet, contexts::narrow(state));
    take(state, memory, response, packet, m)
}
