// A run over a log: as many of its lines as have room in a buffer.
#![tactic(auto)]

ghost use Rattle.std.specs.Prelude.{length};
ghost use Rattle.reading.specs.Desk.{desk};
ghost use Rattle.log_run.specs.Running.{LogRunPromise, RunOnward};

use log_lines::LINE;
pub use log_pieces::{Piece, next_line};

// The bytes put, the place and the number of records behind those that were read, and whether the run is over, with no more to put.
#[derive(Clone, Copy)]
pub struct Ran {
    pub used: usize,
    pub at: usize,
    pub count: usize,
    pub over: bool,
}

// The records from that place on are read, with `count` records before it, and their lines stand in the front of `out`: as long as
// what is left of `out` has LINE bytes, up to the last line. The next run goes on where this one stopped.
// A record takes a byte at least: with more records before the place than bytes the run is over, and nothing is read or put.
pub fn run(
    state: &mut [usize],
    stream_memory: &mut [u8],
    message_memory: &mut [u8],
    response: &mut [u8],
    log: &[u8],
    at: usize,
    count: usize,
    out: &mut [u8],
) -> Ran
    ensures log_run_promise { LogRunPromise (desk state.old stream_memory.old message_memory.old response.old)
        log.now at count out.old result (desk state.new stream_memory.new message_memory.new response.new) out.new }
    ensures run_onward { RunOnward (length log.now) at (length out.old) result }
{
    if at < count {
        return Ran {
            used: 0,
            at,
            count,
            over: true,
        };
    }
    let mut place = at;
    let mut number = count;
    let mut used = 0;
    while LINE <= out.len() - used {
        let piece = next_line(
            state,
            stream_memory,
            message_memory,
            response,
            log,
            place,
            number,
            &mut out[used..],
        );
        match piece {
            Piece::Line { size, next } => {
                used += size;
                place = next;
                number += 1;
            }
            Piece::Last { size } => {
                return Ran {
                    used: used + size,
                    at: place,
                    count: number,
                    over: true,
                };
            }
        }
    }
    Ran {
        used,
        at: place,
        count: number,
        over: false,
    }
}
