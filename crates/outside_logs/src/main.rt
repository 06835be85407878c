// Logs that the second program made, one behind the other: each a length of four bytes and the log.
// Prints what the log program prints for each.
#![tactic(auto)]

use outside::bundles::Logs;
use printing::{print_number, print_text, read_full};

// Room for the logs, all zeros.
fn room() -> [u8; 524288] {
    [0; 524288]
}

fn main(rt: HostRuntime) {
    let mut bundle = room();
    let n = read_full(&mut rt.stdin(), &mut bundle);
    for log in Logs(&bundle[..n]) {
        print_text(&rt, b"log ");
        print_number(&rt, log.len());
        print_text(&rt, b"\n");
        log_print::print_log(&rt, log);
    }
}
