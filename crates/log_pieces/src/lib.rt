// The lines of a log, one for each record, and a last one; piece by piece.
#![tactic(auto)]

ghost use Rattle.std.specs.Prelude.{length};
ghost use Rattle.reading.specs.Desk.{desk};
ghost use Rattle.log_pieces.specs.Printing.{LinePromise, Onward};

// A record's line, with the place behind the record; or the last line.
#[derive(Clone, Copy)]
pub enum Piece {
    Line { size: usize, next: usize },
    Last { size: usize },
}

// The record at that place is read, with `count` records before it, and its line stands in the front of `line`;
// at the end, and where the log is bad, the last line. A size is 0 where `line` has under log_lines::LINE bytes.
pub fn next_line(
    state: &mut [usize],
    stream_memory: &mut [u8],
    message_memory: &mut [u8],
    response: &mut [u8],
    log: &[u8],
    at: usize,
    count: usize,
    line: &mut [u8],
) -> Piece
    ensures line_promise { LinePromise (desk state.old stream_memory.old message_memory.old response.old)
        log.now at count line.old result (desk state.new stream_memory.new message_memory.new response.new) line.new }
    ensures onward { Onward (length log.now) at result }
{
    let Ok(found) = log_records::next_record(log, at) else {
        return Piece::Last {
            size: log_lines::write_bad(line),
        };
    };
    let Some(record) = found else {
        return Piece::Last {
            size: log_lines::write_end(line, count),
        };
    };
    let reading = endpoint::read(
        state,
        stream_memory,
        message_memory,
        response,
        &log[record.from..record.next],
    );
    Piece::Line {
        size: log_lines::write_line(line, reading),
        next: record.next,
    }
}
