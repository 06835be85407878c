// What asking after a context answers, as numbers, which C can take.
#![tactic(auto)]

ghost use Rattle.std.specs.Prelude.{◌≡◌};
ghost use Rattle.answers.specs.Answers.{said_of_stream_by, said_of_message_by};
ghost use Rattle.c_reports.specs.Reports.{kind_number};
ghost use Rattle.c_contexts.specs.Open.{no_stream, open_stream_of, no_message, open_message_of};

use answers::{UnfinishedMessage, UnfinishedPdu};
use c_reports::Kind;
use refusals::Numbered;

// Kind, refusal number; of an open one its flow's source and cos, its streamID, how many bytes are held, and its flow's priority.
#[repr(C)]
#[derive(Clone, Copy)]
pub struct OpenStream {
    pub kind: usize,
    pub number: usize,
    pub source: usize,
    pub cos: usize,
    pub stream: usize,
    pub held: usize,
    pub priority: usize,
}

// Kind, refusal number; of an open one who sends it, its msglen, the bytes of its segments, which have come, and the last one's length.
#[repr(C)]
#[derive(Clone, Copy)]
pub struct OpenMessage {
    pub kind: usize,
    pub number: usize,
    pub source: usize,
    pub letter: usize,
    pub mbox: usize,
    pub msglen: usize,
    pub size: usize,
    pub marks: usize,
    pub last: usize,
}

// What is said of a stream context where no PDU is open: its kind, and a refusal's number.
fn no_stream(kind: Kind, number: usize) -> OpenStream
    ensures { result ≡ no_stream (kind_number kind) number }
{
    OpenStream {
        kind: kind as usize,
        number,
        source: 0,
        cos: 0,
        stream: 0,
        held: 0,
        priority: 0,
    }
}

// What is said of a stream context.
impl<R: Numbered> From<Result<Option<UnfinishedPdu>, R>> for OpenStream {
    ghost from_gives = { λ answer told. told ≡ open_stream_of (said_of_stream_by R.number_of answer) };

    fn from(answer: Result<Option<UnfinishedPdu>, R>) -> OpenStream {
        match answer {
            Ok(Some(pdu)) => OpenStream {
                kind: Kind::Open as usize,
                number: 0,
                source: pdu.flow.source,
                cos: pdu.flow.cos,
                stream: pdu.stream,
                held: pdu.held,
                priority: pdu.flow.priority,
            },
            Ok(None) => no_stream(Kind::Free, 0),
            Err(refusal) => no_stream(Kind::Refused, refusal.number()),
        }
    }
}

// What is said of a message context where no message is open.
fn no_message(kind: Kind, number: usize) -> OpenMessage
    ensures { result ≡ no_message (kind_number kind) number }
{
    OpenMessage {
        kind: kind as usize,
        number,
        source: 0,
        letter: 0,
        mbox: 0,
        msglen: 0,
        size: 0,
        marks: 0,
        last: 0,
    }
}

// What is said of a message context.
impl<R: Numbered> From<Result<Option<UnfinishedMessage>, R>> for OpenMessage {
    ghost from_gives = { λ answer told. told ≡ open_message_of (said_of_message_by R.number_of answer) };

    fn from(answer: Result<Option<UnfinishedMessage>, R>) -> OpenMessage {
        match answer {
            Ok(Some(m)) => OpenMessage {
                kind: Kind::Open as usize,
                number: 0,
                source: m.source,
                letter: m.letter,
                mbox: m.mbox,
                msglen: m.msglen,
                size: m.size,
                marks: m.marks,
                last: m.last,
            },
            Ok(None) => no_message(Kind::Free, 0),
            Err(refusal) => no_message(Kind::Refused, refusal.number()),
        }
    }
}
