// Rules that judge a type 9 packet by itself: row 6, and the sizes of row 7.
#![tactic(auto)]

ghost use Rattle.std.specs.Prelude.{◌≡◌};
ghost use Rattle.wire.specs.Packet.{bit};
ghost use Rattle.rules.specs.Segments.{wrong_form, wrong_size};

// Row 6, for `raw` bytes with the pad: none, an odd number, or O is not that of their half-words.
pub fn is_wrong_form(raw: usize, flags: usize) -> bool
    ensures { result ≡ wrong_form raw (bit flags 2) }
{
    if raw == 0 {
        return true;
    }
    // by four a good number of bytes leaves 2 where O is set, else 0
    raw % 4 != 2 * (flags / 2 % 2)
}

// Row 7, for n bytes of data: over MTU is wrong of every segment, under it where E is not set.
pub fn is_wrong_size(flags: usize, n: usize, mtu: usize) -> bool
    ensures { result ≡ wrong_size (bit flags 64) n mtu }
{
    if mtu < n {
        return true;
    }
    if n == mtu {
        return false;
    }
    flags / 64 % 2 == 0
}
