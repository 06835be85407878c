// Packet after packet of a burst, until one stops it. Every caller has tested the state and the memories.
#![tactic(auto)]

ghost use Rattle.reading.specs.Desk.{desk};
ghost use Rattle.c_bursts.specs.Bursts.{run};
ghost use Rattle.c_bursts.specs.Inside.{ReadyToRun, RunPromise};

use c_bursts::Burst;

// Step after step, until one stops. There is room for `room` packets.
pub fn run_over(
    state: &mut [usize],
    stream_memory: &mut [u8],
    message_memory: &mut [u8],
    responses: &mut [u8],
    reports: &mut [usize],
    burst: &[u8],
    pause: usize,
    room: usize,
) -> Burst
    requires { ReadyToRun (run (desk state.old stream_memory.old message_memory.old responses.old) reports.old 0 0) room }
    ensures { RunPromise pause room burst.now
        (run (desk state.old stream_memory.old message_memory.old responses.old) reports.old 0 0)
        result (desk state.new stream_memory.new message_memory.new responses.new) reports.new }
{
    let mut left = room;
    let mut count = 0;
    let mut at = 0;
    loop {
        let t = c_bursts::step_at(
            state,
            stream_memory,
            message_memory,
            responses,
            reports,
            burst,
            pause,
            left,
            count,
            at,
        );
        if let Some(stop) = t.stop {
            return Burst {
                stop: stop as usize,
                number: 0,
                count: t.count,
                next: t.next,
            };
        }
        left -= 1;
        count = t.count;
        at = t.next;
    }
}
