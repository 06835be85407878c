// What the endpoint's calls answer: `Ok`, or a refusal, by a row of document 01's table. specs/Answers.antt sets out document 01's number and
// values for each case.
#![tactic(auto)]

ghost use Rattle.std.specs.Prelude.{◌≡◌, Ok, Err};
ghost use Rattle.answers.specs.declared.Answer.TheVariants.{Held};
ghost use Rattle.answers.specs.Readings.{reading_of};

use refusals::{Numbered, Refusal};
use wire::Flow;

// The answer to a packet that is not refused.
#[derive(Clone, Copy)]
pub enum Answer {
    Held,
    Delivered {
        context: usize,
        flow: Flow,
        stream: usize,
        length: usize,
    },
    Message {
        context: usize,
        source: usize,
        letter: usize,
        mailbox: usize,
        length: usize,
    },
}

// The answer to a packet, whether the packet closed an open stream context undelivered, and how many bytes of response were written.
#[derive(Clone, Copy)]
pub struct Reading<R = Refusal> {
    pub answer: Result<Answer, R>,
    pub dropped: bool,
    pub response: usize,
}

// The answer to an abandoning: the context was closed, or it was free and stays so.
#[derive(Clone, Copy)]
pub enum Abandoned {
    Closed,
    WasFree,
}

// What a stream context holds that is open: whose PDU it is, and how many bytes of it are held.
#[derive(Clone, Copy)]
pub struct UnfinishedPdu {
    pub flow: Flow,
    pub stream: usize,
    pub held: usize,
}

// What a message context holds that is open: which message, of msglen + 1 segments of `size` bytes, which of them have come (mark k is bit k), and
// the length of the last once that has come.
#[derive(Clone, Copy)]
pub struct UnfinishedMessage {
    pub source: usize,
    pub letter: usize,
    pub mbox: usize,
    pub msglen: usize,
    pub size: usize,
    pub marks: usize,
    pub last: usize,
}

// The reading of a packet that is refused.
pub fn refusal<R: Numbered>(refusal: R, dropped: bool, response: usize) -> Reading<R>
    ensures { result ≡ reading_of (Err refusal) dropped response }
{
    Reading {
        answer: Err(refusal),
        dropped,
        response,
    }
}

// The reading of a segment that is held.
pub fn holding(dropped: bool, response: usize) -> Reading
    ensures { result ≡ reading_of (Ok Held) dropped response }
{
    Reading {
        answer: Ok(Answer::Held),
        dropped,
        response,
    }
}
