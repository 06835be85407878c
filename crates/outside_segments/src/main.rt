// PDUs that the second program chose, in cases of twenty-one bytes. Prints every segment that the writer makes of them, and its refusals.
#![tactic(auto)]

use cutting::Heading;
use printing::{print_bytes, print_number, print_text, read_full};

// Byte i of a PDU.
fn pdu_byte(seed: u8, i: usize) -> u8 {
    ((usize::from(seed) + 7 * (i % 65536) + i / 256 % 256) % 256) as u8
}

// The first bytes of a PDU.
fn fill(pdu: &mut [u8], seed: u8) {
    for (i, byte) in pdu.iter_mut().enumerate() {
        *byte = pdu_byte(seed, i);
    }
}

// What the writer does for one segment, with an output of so many bytes.
fn print_segment(
    rt: &impl Print,
    heading: Heading,
    mtu: usize,
    pdu: &[u8],
    number: usize,
    out: &mut [u8],
) {
    match segments::write_segment(out, heading, mtu, pdu, number) {
        Ok(size) => {
            print_bytes(rt, b"", &out[..size]);
        }
        Err(refusal) => {
            print_text(rt, b"refused ");
            print_number(rt, refusal.number());
        }
    }
    print_text(rt, b"\n");
}

// Every segment of a PDU, and one number past the last.
fn print_segments(rt: &impl Print, heading: Heading, mtu: usize, pdu: &[u8], out: &mut [u8]) {
    let count = segments::segment_count(mtu, pdu.len());
    print_text(rt, b"case ");
    print_number(rt, count);
    print_text(rt, b"\n");
    for number in 0..=count {
        print_segment(rt, heading, mtu, pdu, number, out);
    }
}

// mtu 4, priority 1, destination 2, source 2, cos 1, streamID 2, length 4, seed 1, output's length 3, width 1: 0 is 16 bits, else 8.
fn print_case(rt: &impl Print, case: &[u8; 21]) {
    let mut pdu = [0u8; 65537];
    let mut out = [0u8; 300];
    let heading = Heading {
        destination: u16::from_be_bytes([case[5], case[6]]),
        source: u16::from_be_bytes([case[7], case[8]]),
        cos: case[9],
        stream: u16::from_be_bytes([case[10], case[11]]),
        priority: case[4],
        narrow: usize::from(case[20]),
    };
    let mtu = lists::long_at(case, 0);
    let size = lists::long_at(case, 12);
    let room = u32::from_be_bytes([0, case[17], case[18], case[19]]) as usize;
    if let (Some(pdu), Some(out)) = (pdu.get_mut(..size), out.get_mut(..room)) {
        fill(pdu, case[16]);
        print_segments(rt, heading, mtu, pdu, out);
    }
}

fn main(rt: HostRuntime) {
    let mut cases = [0u8; 32768];
    let n = read_full(&mut rt.stdin(), &mut cases);
    for case in cases[..n].as_chunks::<21>().0 {
        print_case(&rt, case);
    }
}
