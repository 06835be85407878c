// One record of a log, or of a burst, as it is written: a packet's length in one byte or two, then its bytes.
#![tactic(auto)]

ghost use Rattle.std.specs.Prelude.{◌≡◌, ◌<◌, ◌≤◌, length, take};
ghost use Rattle.log_records.specs.Written.{length_bytes};
ghost use Rattle.log_writer.specs.Writing.{RecordLengthPromise, WriteRecordPromise};

use refusals::Refusal;

// The longest packet that a record can hold.
const LONGEST: usize = 16383;

// How many bytes a packet's length takes.
fn front_of(size: usize) -> usize
    ensures { (result ≡ length (length_bytes size)) × (result ≤ 2) }
{
    if size < 128 {
        return 1;
    }
    2
}

// A packet's length in groups of seven bits: both bytes, or the first of them. Every caller has tested it.
fn groups_of(size: usize) -> [u8; 2]
    requires { size < 16384 }
    ensures { (take (length (length_bytes size)) result ≡ length_bytes size) × (length result ≡ 2) }
{
    if size < 128 {
        return [size as u8, 0];
    }
    [(size % 128 + 128) as u8, (size / 128) as u8]
}

// How many bytes the record of a packet of `size` bytes has; 0 where no record can hold the packet.
pub fn record_length(size: usize) -> usize
    ensures { RecordLengthPromise size result }
{
    if LONGEST < size {
        return 0;
    }
    front_of(size) + size
}

// Writes the record of the packet into the front of `out`.
pub fn write_record(out: &mut [u8], packet: &[u8]) -> Result<usize, Refusal>
    ensures { WriteRecordPromise out.old packet.now result out.new }
{
    if LONGEST < packet.len() {
        return Err(Refusal::Buffer);
    }
    let front = front_of(packet.len());
    let length = front + packet.len();
    if out.len() < length {
        return Err(Refusal::Out);
    }
    let groups = groups_of(packet.len());
    lists::copy(out, &groups[..front]);
    lists::store(out, front, packet);
    Ok(length)
}
