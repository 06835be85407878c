// Many packets in one call: a burst in the log's record form. The state and the memories are tested once, then each packet is read
// by what the one before left.
#![tactic(auto)]

ghost use Rattle.std.specs.Prelude.{◌≡◌};
ghost use Rattle.refusals.specs.Numbers.{row_number};
ghost use Rattle.reading.specs.Desk.{desk};
ghost use Rattle.c_bursts.specs.Bursts.{refused_all, answering, room_for, BurstPromise};

use c_bursts::{Burst, Stop};
use refusals::Refusal;

// The packets that have room for a report and a response.
#[tactic(auto, unfolding(c_bursts::specs::Bursts::room_for))]
fn room_for(report_words: usize, response_bytes: usize) -> usize
    ensures { result ≡ room_for report_words response_bytes }
{
    (report_words / c_reports::WORDS).min(response_bytes / c_bursts::SLOT)
}

// A burst that is refused as a whole.
fn refused(refusal: Refusal) -> Burst
    ensures { result ≡ answering refused_all (row_number refusal) 0 0 }
{
    Burst {
        stop: Stop::Refused as usize,
        number: refusal.number(),
        count: 0,
        next: 0,
    }
}

// Reads the packets of a burst, until its end, a bad record, or the last one that has room for a report and a response;
// where `pause` is not 0, until one delivers a PDU or a message.
pub fn read_burst(
    state: &mut [usize],
    stream_memory: &mut [u8],
    message_memory: &mut [u8],
    responses: &mut [u8],
    reports: &mut [usize],
    burst: &[u8],
    pause: usize,
) -> Burst
    ensures { BurstPromise pause (desk state.old stream_memory.old message_memory.old responses.old) reports.old
        burst.now result (desk state.new stream_memory.new message_memory.new responses.new) reports.new }
{
    if let Err(refusal) = reading::lent_refusal(state, stream_memory, message_memory, responses) {
        return refused(refusal);
    }
    let room = room_for(reports.len(), responses.len());
    c_loops::run_over(
        state,
        stream_memory,
        message_memory,
        responses,
        reports,
        burst,
        pause,
        room,
    )
}
