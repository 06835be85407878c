// The segments received of a message, as sixteen marks in one number. No context and no packet is known here.
#![tactic(auto)]

ghost use Rattle.std.specs.Prelude.{◌≡◌, false, ◌+◌, ◌<◌, ◌≤◌, ◌^◌};
ghost use Rattle.marks.specs.Marks.{marked as markedOf, with_mark, all_marked, counted_complete};

// Two to the k: the weight of mark k.
pub fn power(k: usize) -> usize
    requires { k ≤ 16 }
    ensures { (result ≡ 2 ^ k) × (result ≤ 65536) }
{
    1usize << k
}

// Whether segment k is marked.
#[tactic(auto, unfolding(crate::specs::Marks::marked))]
pub fn marked(marks: u16, k: usize) -> bool
    requires { k < 16 }
    ensures { result ≡ markedOf marks k }
{
    (marks >> k) % 2 == 1
}

// The marks with segment k, so far unmarked, marked too: the compiler has one instruction for it.
pub fn with_mark(marks: usize, k: usize) -> usize
    requires { (k < 16) × (markedOf marks k ≡ false) }
    ensures { result ≡ with_mark marks k }
{
    marks | power(k)
}

// Whether a message has all its segments, 0 to msglen: msglen+1 of its marks are ones. Every caller has seen that none stands past msglen.
pub fn complete(marks: u16, msglen: usize) -> bool
    requires { (msglen < 16) × (marks < 2 ^ (msglen + 1)) }
    ensures { (result ≡ all_marked marks (msglen + 1)) × (result ≡ counted_complete marks msglen) }
{
    marks.count_ones() as usize == msglen + 1
}
