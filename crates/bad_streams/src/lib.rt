// Clauses of row 19: R, and one stream context.
#![tactic(auto)]

ghost use Rattle.std.specs.Prelude.{◌≡◌};
ghost use Rattle.refusal19.specs.Refusal19.{bad_room, bad_stream};

use contexts::StreamContext;

// Whether R is under the MTU or over 65,536.
pub fn bad_room(mtu: usize, room: usize) -> bool
    ensures { result ≡ bad_room mtu room }
{
    if room < mtu {
        return true;
    }
    65536 < room
}

// Whether an open stream context holds 0 or over R bytes.
pub fn bad_stream(c: StreamContext, room: usize) -> bool
    ensures { result ≡ bad_stream room c }
{
    if c.live == 0 {
        return false;
    }
    if c.held == 0 {
        return true;
    }
    room < c.held
}
