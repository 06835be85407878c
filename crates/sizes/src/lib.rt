// Sizes that a packet or a setup may have, and what a field says of one. No state.
#![tactic(auto)]

ghost use Rattle.std.specs.Prelude.{◌≡◌, ◌<◌};
ghost use Rattle.wire.specs.Packet.{bit};
ghost use Rattle.sizes.specs.Sizes.{bad_mtu, pdu_length, without_pad, bytes_of, in_eights};

// Whether an MTU is no multiple of 4 from 32 to 256.
#[tactic(auto, unfolding(crate::specs::Sizes::bad_mtu))]
pub fn bad_mtu(mtu: usize) -> bool
    ensures { result ≡ bad_mtu mtu }
{
    !(32..=256).contains(&mtu) || mtu % 4 != 0
}

// The PDU length that an end's field means.
#[tactic(auto, unfolding(crate::specs::Sizes::pdu_length))]
pub fn pdu_length(field: usize) -> usize
    ensures { result ≡ pdu_length field }
{
    if field == 0 { 65536 } else { field }
}

// The bytes of a segment's data, the pad not counted: P is the lowest bit. Row 6 has refused a segment without data.
pub fn data_length(raw: usize, flags: usize) -> usize
    requires { 0 < raw }
    ensures { result ≡ without_pad raw (bit flags 1) }
{
    raw - flags % 2
}

// The bytes that an ssize code means; 0 where it is reserved or no code.
#[tactic(auto, unfolding(crate::specs::Sizes::bytes_of))]
pub fn bytes_of(code: usize) -> usize
    ensures { result ≡ bytes_of code }
{
    match code {
        9 => 8,
        10 => 16,
        11 => 32,
        12 => 64,
        13 => 128,
        14 => 256,
        _ => 0,
    }
}

// Whether n bytes are 8 to `size` in eights.
#[tactic(auto, unfolding(crate::specs::Sizes::in_eights))]
pub fn in_eights(n: usize, size: usize) -> bool
    ensures { result ≡ in_eights n size }
{
    (8..=size).contains(&n) && n % 8 == 0
}
