// Reads document 01's two sample packets and prints what the endpoint answers: for the PDU its bytes, for the message its response.
#![tactic(auto)]

use answers::Answer;
use endpoint::Setup;
use printing::{print_bytes, print_number, print_text};
use refusals::Refusal;

// A word, and behind it each number after a space.
fn numbers(rt: &impl Print, word: &[u8], numbers: &[usize]) {
    print_text(rt, word);
    for n in numbers {
        print_text(rt, b" ");
        print_number(rt, *n);
    }
    print_text(rt, b"\n");
}

// One line for an answer.
fn line(rt: &impl Print, answer: Result<Answer, Refusal>) {
    match answer {
        Ok(Answer::Held) => numbers(rt, b"held", &[]),
        Ok(
            Answer::Delivered {
                flow,
                stream,
                length,
                ..
            },
        ) => numbers(rt, b"pdu", &[flow.source, flow.cos, stream, length]),
        Ok(
            Answer::Message {
                source,
                letter,
                mailbox,
                length,
                ..
            },
        ) => numbers(rt, b"msg", &[source, letter, mailbox, length]),
        Err(refusal) => numbers(rt, b"refused", &[refusal.number()]),
    }
}

fn main(rt: HostRuntime) {
    let mut state = [0usize; contexts::WORDS];
    let mut streams = [0u8; 16384];
    let mut messages = [0u8; 32768];
    let mut response = [0u8; 7];
    let _ = endpoint::setup(
        &mut state,
        Setup {
            device: 1,
            mtu: 32,
            room: 1024,
            narrow: 0,
        },
    );

    let pdu = b"\x19\x00\x01\x00\x02\x05\xc1\x00\x07\xaa\xbb\xcc\x00";
    let read = endpoint::read(&mut state, &mut streams, &mut messages, &mut response, pdu);
    let answer = read.answer;
    line(&rt, answer);
    print_text(&rt, b"its bytes:");
    print_bytes(&rt, b" ", endpoint::stream_room(&state, &streams, 0, 3));
    print_text(&rt, b"\n");

    let message = b"\x1b\x00\x01\x00\x02\x09\x60\x11\x12\x13\x14\x15\x16\x17\x18";
    let read = endpoint::read(
        &mut state,
        &mut streams,
        &mut messages,
        &mut response,
        message,
    );
    let answer = read.answer;
    line(&rt, answer);
    print_text(&rt, b"its response:");
    print_bytes(&rt, b" ", &response);
    print_text(&rt, b"\n");
}
