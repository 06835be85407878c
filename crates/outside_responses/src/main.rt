// A log of packets that the second program made. Prints for each packet its line, and the response that it wrote, or `none`.
#![tactic(auto)]

use endpoint::Setup;
use log_reader::LogReader;
use outside::boards;
use outside::boards::Board;
use printing::read_full;

// Reads the records of a log, by a reader that holds it. With IDs of 16 bits every response has seven bytes.
fn print_packets(rt: &impl Print, board: &mut Board, log: &[u8]) {
    let mut reader = LogReader::new(log);
    while let Ok(Some(record)) = reader.next() {
        boards::print_packet::<7>(rt, board, &log[record.from..record.next]);
    }
}

fn main(rt: HostRuntime) {
    let mut board = boards::new(Setup {
        device: 1,
        mtu: 32,
        room: 2048,
        narrow: 0,
    });
    let mut log = [0u8; 65536];
    let n = read_full(&mut rt.stdin(), &mut log);
    print_packets(&rt, &mut board, &log[..n]);
}
