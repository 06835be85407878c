// A segment that the PDU has is written, where the output has room for it: row 16.
#![tactic(auto)]

ghost use Rattle.std.specs.Prelude.{◌≡◌, ◌<◌, ◌≤◌, length};
ghost use Rattle.answers.specs.Answers.{said_of_writer};
ghost use Rattle.cutting.specs.Cutting.{segment_count, ids_for, packet_of};
ghost use Rattle.writing.specs.Writer.{wrote_of, fitting};

use cutting::Heading;
use refusals::Refusal;

// Writes a segment that the PDU has, where the output has room for it. `count` is how many the PDU makes, `ids` the bytes of an ID.
fn write_at(
    out: &mut [u8],
    heading: Heading,
    mtu: usize,
    pdu: &[u8],
    number: usize,
    count: usize,
    ids: usize,
) -> Result<usize, Refusal>
    requires priority_bound { (heading.priority ≤ 3) × (0 < mtu) × (mtu ≤ 256) × (length pdu.now ≤ 65536) }
    requires count_value { (count ≡ segment_count mtu (length pdu.now)) × (number < count) }
    requires ids_value { (ids ≡ ids_for heading) × (1 ≤ ids) × (ids ≤ 2) }
    ensures { wrote_of (said_of_writer result) out.new ≡ fitting out.old (packet_of heading mtu pdu.now number) }
{
    let first = number == 0;
    let last = number + 1 == count;
    let from = number * mtu;
    let n = cutting::data_length(mtu, pdu.len(), from);
    let front = segment_head::head_length(first, last, ids);
    let length = front + n + n % 2;
    if out.len() < length {
        return Err(Refusal::Out);
    }
    let at = ids::header(ids) + 2;
    segment_head::put_head(out, heading, segment_head::flags(first, last, n), ids);
    segment_head::put_field(out, at, first, last, heading.stream, pdu.len());
    cutting::put(out, front, &pdu[from..from + n]);
    Ok(length)
}

// The same with IDs as the heading chooses. The width parts here, so that each side has its places as constants.
#[tactic(auto, unfolding(wire::specs::Packet::id_bytes))]
pub fn write_fitting(
    out: &mut [u8],
    heading: Heading,
    mtu: usize,
    pdu: &[u8],
    number: usize,
    count: usize,
) -> Result<usize, Refusal>
    requires priority_bound { (heading.priority ≤ 3) × (0 < mtu) × (mtu ≤ 256) × (length pdu.now ≤ 65536) }
    requires count_value { (count ≡ segment_count mtu (length pdu.now)) × (number < count) }
    ensures { wrote_of (said_of_writer result) out.new ≡ fitting out.old (packet_of heading mtu pdu.now number) }
{
    if heading.narrow == 0 {
        return write_at(out, heading, mtu, pdu, number, count, 2);
    }
    write_at(out, heading, mtu, pdu, number, count, 1)
}
