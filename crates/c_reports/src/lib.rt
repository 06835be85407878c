// The answer to a packet as a report of numbers, which C can take: as a struct, and as words of a lent buffer.
#![tactic(auto)]

ghost use Rattle.std.specs.Prelude.{◌≡◌, ◌+◌, ◌≤◌, length};
ghost use Rattle.answers.specs.Answers.{said_by};
ghost use Rattle.lists.specs.Bytes.{written};
ghost use Rattle.c_reports.specs.Reports.{kind_number, flag_of, plain_of, report_of, report_words, words_of_report};

use answers::{Answer, Reading};
use refusals::Numbered;

// The kinds of answers, of every call, as include/kaiverohm.h has them: answers/specs/Kinds.antt.
#[derive(Clone, Copy, Debug, PartialEq, Eq)]
pub enum Kind {
    Refused = 0,
    Held = 1,
    Delivered = 2,
    Message = 3,
    Ready = 4,
    Closed = 5,
    Free = 6,
    Written = 7,
    Open = 8,
}

// The words of a report.
pub const WORDS: usize = 10;

// Kind, refusal number, 1 where an open PDU was dropped, bytes of response written, context, source, cos or letter, streamID or mailbox, length,
// priority.
#[repr(C)]
#[derive(Clone, Copy)]
pub struct Report {
    pub kind: usize,
    pub number: usize,
    pub dropped: usize,
    pub response: usize,
    pub context: usize,
    pub source: usize,
    pub cos_or_letter: usize,
    pub stream_or_mailbox: usize,
    pub length: usize,
    pub priority: usize,
}

// What carries no PDU and no message.
fn plain(kind: Kind, number: usize, dropped: bool, response: usize) -> Report
    ensures { result ≡ plain_of (kind_number kind) number (flag_of dropped) response }
{
    Report {
        kind: kind as usize,
        number,
        dropped: usize::from(dropped),
        response,
        context: 0,
        source: 0,
        cos_or_letter: 0,
        stream_or_mailbox: 0,
        length: 0,
        priority: 0,
    }
}

// The report of reading a packet.
impl<R: Numbered> From<Reading<R>> for Report {
    ghost from_gives = { λ reading report. report ≡ report_of (said_by R.number_of reading.answer) reading.dropped reading.response };

    #[tactic(auto, unfolding(crate::specs::Reports::report_of))]
    fn from(reading: Reading<R>) -> Report {
        let dropped = reading.dropped;
        let response = reading.response;
        match reading.answer {
            Err(refusal) => plain(Kind::Refused, refusal.number(), dropped, response),
            Ok(Answer::Held) => plain(Kind::Held, 0, dropped, response),
            Ok(
                Answer::Delivered {
                    context,
                    flow,
                    stream,
                    length,
                },
            ) => Report {
                context,
                source: flow.source,
                cos_or_letter: flow.cos,
                stream_or_mailbox: stream,
                length,
                priority: flow.priority,
                ..plain(Kind::Delivered, 0, dropped, response)
            },
            Ok(
                Answer::Message {
                    context,
                    source,
                    letter,
                    mailbox,
                    length,
                },
            ) => Report {
                context,
                source,
                cos_or_letter: letter,
                stream_or_mailbox: mailbox,
                length,
                ..plain(Kind::Message, 0, dropped, response)
            },
        }
    }
}

// Writes a report as words, from `at` on. Every caller has room for them.
pub fn put(words: &mut [usize], at: usize, r: Report)
    requires { at + report_words ≤ length words.old }
    ensures { words.new ≡ written words.old at (words_of_report r) }
{
    words[at] = r.kind;
    words[at + 1] = r.number;
    words[at + 2] = r.dropped;
    words[at + 3] = r.response;
    words[at + 4] = r.context;
    words[at + 5] = r.source;
    words[at + 6] = r.cos_or_letter;
    words[at + 7] = r.stream_or_mailbox;
    words[at + 8] = r.length;
    words[at + 9] = r.priority;
}
