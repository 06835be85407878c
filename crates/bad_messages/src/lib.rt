// Clauses of row 19: one message context.
#![tactic(auto)]

ghost use Rattle.std.specs.Prelude.{◌≡◌, ◌<◌};
ghost use Rattle.refusal19.specs.Refusal19.{bad_last, bad_marks, bad_message};

use contexts::MessageContext;

fn bad_last(c: MessageContext) -> bool
    requires { (c.msglen < 16) × (c.marks < 65536) }
    ensures { result ≡ bad_last c }
{
    let size = sizes::bytes_of(c.ssize);
    if marks::marked(c.marks as u16, c.msglen) {
        if sizes::in_eights(c.last, size) {
            return false;
        }
        return true;
    }
    c.last != 0
}

// None, all, or marks beyond msglen: these are no fewer than all. Of fewer the last segment's length decides.
fn bad_marks(c: MessageContext) -> bool
    requires { c.msglen < 16 }
    ensures { result ≡ bad_marks c }
{
    let all = marks::power(c.msglen + 1) - 1;
    if c.marks == 0 {
        return true;
    }
    if all <= c.marks {
        return true;
    }
    bad_last(c)
}

pub fn bad_message(c: MessageContext) -> bool
    ensures { result ≡ bad_message c }
{
    if c.live == 0 {
        return false;
    }
    if sizes::bytes_of(c.ssize) == 0 {
        return true;
    }
    if c.msglen == 0 {
        return true;
    }
    if 15 < c.msglen {
        return true;
    }
    bad_marks(c)
}
