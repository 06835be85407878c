// What a log prints, on standard output: runs over the log, each written as it ends.
#![tactic(auto)]

ghost use Rattle.std.specs.Prelude.{◌≡◌, ◌≤◌, length};
ghost use Rattle.log_pieces.specs.Output.{output};

use endpoint::Setup;

// Writes to standard output, unless a write has failed before: behind a hole nothing more is written, so no `end` either. The first write
// that fails is said on standard error. Answers whether all went well.
fn put(rt: &(impl Print + Eprint), well: bool, bytes: &[u8]) -> bool {
    if !well {
        return false;
    }
    let written = rt.write_all(bytes).is_ok();
    if !written {
        let _ = rt.eprintln("standard output cannot be written");
    }
    written
}

// Runs over a log from a fresh endpoint: device 1, MTU 32, R 2,048, IDs of 16 bits. Answers how many bytes they put. Every caller has tested the length.
fn print_runs(rt: &(impl Print + Eprint), log: &[u8]) -> usize
    requires { length log.now ≤ 65536 }
    ensures { result ≡ length (output log.now) }
{
    let mut state = [0usize; contexts::WORDS];
    let mut streams = [0u8; 32768];
    let mut messages = [0u8; 32768];
    let mut response = [0u8; responses::LONGEST];
    let mut out = [0u8; 65536];
    let _ = endpoint::setup(
        &mut state,
        Setup {
            device: 1,
            mtu: 32,
            room: 2048,
            narrow: 0,
        },
    );
    let mut at = 0;
    let mut count = 0;
    let mut total = 0;
    let mut well = true;
    loop {
        let ran = log_run::run(
            &mut state,
            &mut streams,
            &mut messages,
            &mut response,
            log,
            at,
            count,
            &mut out,
        );
        let used = ran.used;
        well = put(rt, well, &out[..used]);
        total += used;
        if ran.over {
            return total;
        }
        at = ran.at;
        count = ran.count;
    }
}

// Writes the log program's output for a log to standard output. Answers how many bytes that is.
pub fn print_log(rt: &(impl Print + Eprint), log: &[u8]) -> usize
    ensures { result ≡ length (output log.now) }
{
    if 65536 < log.len() {
        put(rt, true, b"bad log\n");
        return 8;
    }
    print_runs(rt, log)
}
