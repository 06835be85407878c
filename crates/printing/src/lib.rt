// Text, numbers and bytes to standard output, and standard input into a buffer, for the programs. Each function that prints answers how much
// it hands over, and only that is promised: std says nothing of what is written. The vectors show it. A write that fails is not told.
#![tactic(auto)]

ghost use Rattle.std.specs.Prelude.{◌≡◌, ◌+◌, ◌≤◌, length};
ghost use Rattle.printing.specs.Digits.{IsDigitCount};

use std::io::Read;

// Text as it stands. Answers its length.
pub fn print_text(rt: &impl Print, text: &[u8]) -> usize
    ensures { result ≡ length text.now }
{
    let _ = rt.write_all(text);
    text.len()
}

// A number in decimal, without zeros in front. Answers how many digits that are.
pub fn print_number(rt: &impl Print, n: usize) -> usize
    ensures { IsDigitCount n result }
{
    let _ = rt.print(n);
    n.max(1).ilog10() as usize + 1
}

// A byte as two hexadecimal digits.
fn print_byte(rt: &impl Print, b: u8) {
    let _ = print!(rt; "{b:02x}");
}

// Bytes as pairs of hexadecimal digits, each pair behind the same text. Answers how many bytes it has come past: all.
pub fn print_bytes(rt: &impl Print, before: &[u8], bytes: &[u8]) -> usize
    ensures { result ≡ length bytes.now }
{
    bytes
        .iter()
        .inspect(|b| {
            print_text(rt, before);
            print_byte(rt, **b);
        })
        .count()
}

// Reads until the buffer is full, the input ends or a read fails. Answers how many bytes stand in the buffer's front then.
pub fn read_full(input: &mut impl Read, buf: &mut [u8]) -> usize
    ensures { result ≤ length buf.new }
{
    let mut count = 0;
    while count < buf.len() {
        match input.read(&mut buf[count..]) {
            Ok(0) | Err(_) => break,
            Ok(came) => count += came,
        }
    }
    count
}
