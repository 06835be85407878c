// Logs that the second program made for an endpoint with IDs of 8 bits, one behind the other: each a length of four bytes and the log.
// Prints for each packet its line, and the response that it wrote, or `none`.
#![tactic(auto)]

use endpoint::Setup;
use outside::boards;
use outside::boards::Board;
use outside::bundles::Logs;
use printing::{print_number, print_text, read_full};

// Reads the records of a log, up to the first that is bad. With IDs of 8 bits every response has five bytes.
fn print_records(rt: &impl Print, board: &mut Board, log: &[u8]) {
    let mut at = 0;
    while let Ok(Some(record)) = log_records::next_record(log, at) {
        boards::print_packet::<5>(rt, board, &log[record.from..record.next]);
        at = record.next;
    }
}

const SETTINGS: Setup = Setup {
    device: 1,
    mtu: 32,
    room: 2048,
    narrow: 1,
};

// A log, read by an endpoint that is set up anew. What the log before left in its memories is printed by nobody.
fn print_log(rt: &impl Print, board: &mut Board, log: &[u8]) {
    boards::begin(board, SETTINGS);
    print_text(rt, b"log ");
    print_number(rt, log.len());
    print_text(rt, b"\n");
    print_records(rt, board, log);
}

fn main(rt: HostRuntime) {
    let mut board = boards::new(SETTINGS);
    let mut bundle = [0u8; 262144];
    let n = read_full(&mut rt.stdin(), &mut bundle);
    for log in Logs(&bundle[..n]) {
        print_log(&rt, &mut board, log);
    }
}
