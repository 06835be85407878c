// One packet of a burst, which has a report and a response of its own. Every caller has tested the state and the memories.
#![tactic(auto)]

ghost use Rattle.std.specs.Prelude.{◌≡◌};
ghost use Rattle.reading.specs.Desk.{desk};
ghost use Rattle.answers.specs.Answers.{said};
ghost use Rattle.c_reports.specs.Reports.{kind_of};
ghost use Rattle.c_bursts.specs.Bursts.{run, pause_of};
ghost use Rattle.c_bursts.specs.Inside.{ReadyToRun, PacketPromise, StepPromise, goes_or_stops, GoesOnAt0};

use answers::Answer;
use c_reports::Report;
use log_records::Record;
use refusals::Refusal;

// The bytes of `responses` that each packet has for its own.
pub const SLOT: usize = 8;

// Why a burst stops: refused as a whole, at its end, at a bad record, without room for another report or response, or behind a delivery. The numbers
// are those of include/kaiverohm.h.
#[derive(Clone, Copy, Debug, PartialEq, Eq)]
pub enum Stop {
    Refused = 0,
    End = 1,
    Bad = 2,
    Full = 3,
    Delivery = 4,
}

// Why a burst stopped, the refusal's number, the packets read, and where the first unread record begins.
#[repr(C)]
#[derive(Clone, Copy)]
pub struct Burst {
    pub stop: usize,
    pub number: usize,
    pub count: usize,
    pub next: usize,
}

// Why the burst stops, if it does; the packets read so far, and where the next record begins.
#[derive(Clone, Copy)]
pub struct Step {
    pub stop: Option<Stop>,
    pub count: usize,
    pub next: usize,
}

// Reads a packet, with its own slot for the response and its own words for the report. Answers what reading it said.
fn read_packet(
    state: &mut [usize],
    stream_memory: &mut [u8],
    message_memory: &mut [u8],
    responses: &mut [u8],
    reports: &mut [usize],
    packet: &[u8],
    count: usize,
) -> Result<Answer, Refusal>
    requires { ReadyToRun (run (desk state.old stream_memory.old message_memory.old responses.old) reports.old count 0) 1 }
    ensures { PacketPromise (run (desk state.old stream_memory.old message_memory.old responses.old) reports.old count 0)
        packet.now result (desk state.new stream_memory.new message_memory.new responses.new) reports.new }
{
    let at = SLOT * count;
    let end = at + SLOT;
    let reading = packets::step(
        state,
        stream_memory,
        message_memory,
        &mut responses[at..end],
        packet,
    );
    c_reports::put(reports, c_reports::WORDS * count, Report::from(reading));
    reading.answer
}

// Whether the burst stops behind a packet: where the caller asked for it, and the packet delivered a PDU or a message.
#[tactic(auto, unfolding(crate::specs::Bursts::pause_of))]
fn pausing(pause: usize, answer: Result<Answer, Refusal>) -> Option<Stop>
    ensures number { goes_or_stops result ≡ pause_of pause (kind_of (said answer)) }
    ensures goes { GoesOnAt0 result }
{
    match answer {
        Ok(Answer::Delivered { .. } | Answer::Message { .. }) if pause != 0 => Some(Stop::Delivery),
        _ => None,
    }
}

// One step: the record at a place is read, where there is one and it has room. There is room for `room` packets more.
pub fn step_at(
    state: &mut [usize],
    stream_memory: &mut [u8],
    message_memory: &mut [u8],
    responses: &mut [u8],
    reports: &mut [usize],
    burst: &[u8],
    pause: usize,
    room: usize,
    count: usize,
    at: usize,
) -> Step
    requires { ReadyToRun (run (desk state.old stream_memory.old message_memory.old responses.old) reports.old count at) room }
    ensures { StepPromise pause room burst.now
        (run (desk state.old stream_memory.old message_memory.old responses.old) reports.old count at)
        result (desk state.new stream_memory.new message_memory.new responses.new) reports.new }
{
    match log_records::next_record(burst, at) {
        Ok(None) => Step {
            stop: Some(Stop::End),
            count,
            next: at,
        },
        Err(_) => Step {
            stop: Some(Stop::Bad),
            count,
            next: at,
        },
        Ok(Some(Record { from, size, next })) => {
            if room == 0 {
                return Step {
                    stop: Some(Stop::Full),
                    count,
                    next: at,
                };
            }
            let answer = read_packet(
                state,
                stream_memory,
                message_memory,
                responses,
                reports,
                &burst[from..from + size],
                count,
            );
            Step {
                stop: pausing(pause, answer),
                count: count + 1,
                next,
            }
        }
    }
}
