// The log program: a log on standard input, its lines on standard output. What fails is said on standard error.
#![tactic(auto)]

ghost use Rattle.std.specs.Prelude.{IfOk};
ghost use Rattle.racklog.specs.Counts.{IsPrefixLen};

use std::io;
use std::io::Read;

// Reads until the input ends or the buffer is full. Answers how many bytes stand in the buffer's front then. A read that fails is no end of the
// input.
fn read_log(input: &mut impl Read, log: &mut [u8]) -> io::Result<usize>
    ensures { IfOk result (λ count. IsPrefixLen count log.new) }
{
    let mut count = 0;
    while count < log.len() {
        let came = input.read(&mut log[count..])?;
        if came == 0 {
            break;
        }
        count += came;
    }
    Ok(count)
}

fn main(rt: HostRuntime) {
    // one byte more than the longest log, so that a longer one shows
    let mut log = [0u8; 65537];
    let Ok(count) = read_log(&mut rt.stdin(), &mut log) else {
        let _ = rt.eprintln("the log cannot be read");
        return;
    };
    log_print::print_log(&rt, &log[..count]);
}
