// Rows 1 to 5 of the refusal table: the head of a packet, by which it is refused, or of type 9 or 11. No state.
#![tactic(auto)]

ghost use Rattle.std.specs.Prelude.{◌≡◌, true, IfErr, ◌+◌, ◌<◌, ◌≤◌, length};
ghost use Rattle.refusals.specs.Numbers.{row_number};
ghost use Rattle.wire.specs.Packet.{header, id_bytes};
ghost use Rattle.wire.specs.Head.{is9};
ghost use Rattle.wire.specs.Inside.{headed, headed_behind};
ghost use Rattle.heads.specs.Heads.{head_number};

use refusals::Refusal;

// The types that are read.
#[derive(Clone, Copy, Debug, PartialEq, Eq)]
pub enum PacketType {
    DataStreaming = 9,
    Message = 11,
}

// Rows 5 and 1 of a type 9 packet that has its flags.
fn head_of_9(packet: &[u8], ids: usize) -> Result<PacketType, Refusal>
    requires { (ids ≤ 2) × (header ids + 2 ≤ length packet.now) × (is9 packet.now ≡ true) }
    ensures number { head_number result ≡ headed_behind 5 ids packet.now }
    ensures row { IfErr result (λ refusal. row_number refusal < 9) }
{
    let h = ids::header(ids);
    let flags = lists::wide(packet[h + 1]);
    if wire::bit(flags, 4) {
        return Err(Refusal::Extended);
    }
    if h + 4 <= packet.len() {
        return Ok(PacketType::DataStreaming);
    }
    // neither S nor E: no field
    if flags < 64 {
        return Ok(PacketType::DataStreaming);
    }
    Err(Refusal::Short)
}

// The head from row 4 on.
fn head_by_type(packet: &[u8], ids: usize) -> Result<PacketType, Refusal>
    requires { (1 ≤ ids) × (ids ≤ 2) × (header ids ≤ length packet.now) }
    ensures number { head_number result ≡ headed_behind 3 ids packet.now }
    ensures row { IfErr result (λ refusal. row_number refusal < 9) }
{
    let h = ids::header(ids);
    let kind = lists::wide(packet[0]) % 16;
    if kind == 9 {
        if packet.len() < h + 2 {
            return Err(Refusal::Short);
        }
        return head_of_9(packet, ids);
    }
    if kind == 11 {
        if packet.len() < h + 2 {
            return Err(Refusal::Short);
        }
        return Ok(PacketType::Message);
    }
    Err(Refusal::Type)
}

// Rows 1 to 5, for the endpoint of that device ID whose IDs have so many bytes: the packet's type, or the refusal.
fn head_at(packet: &[u8], device: usize, ids: usize) -> Result<PacketType, Refusal>
    requires { (1 ≤ ids) × (ids ≤ 2) }
    ensures number { head_number result ≡ headed device ids packet.now }
    ensures row { IfErr result (λ refusal. row_number refusal < 9) }
{
    if packet.len() < ids::header(ids) {
        return Err(Refusal::Short);
    }
    if lists::wide(packet[0]) / 16 % 4 != ids - 1 {
        return Err(Refusal::IdWidth);
    }
    if ids::id_at(packet, 1, ids) != device {
        return Err(Refusal::OtherDevice);
    }
    head_by_type(packet, ids)
}

// Rows 1 to 5 at the width of the endpoint. It parts here, so that each side has its places as constants (docs/PERFORMANCE.md).
#[inline(always)]
pub fn head(packet: &[u8], device: usize, narrow: usize) -> Result<PacketType, Refusal>
    ensures number { head_number result ≡ headed device (id_bytes narrow) packet.now }
    ensures row { IfErr result (λ refusal. row_number refusal < 9) }
{
    if narrow == 0 {
        return head_at(packet, device, 2);
    }
    head_at(packet, device, 1)
}
