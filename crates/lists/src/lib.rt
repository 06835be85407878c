// Bytes and lists: what every layer above uses, and nothing of RapidIO.
#![tactic(auto)]

ghost use Rattle.std.specs.Prelude.{◌≡◌, ℕ, true, false, IfSome, unwrap_or, ◌+◌, ◌<◌, ◌≤◌, length, take, drop};
ghost use Rattle.lists.specs.Bytes.{word, long, written};

// A byte as a number.
pub fn wide(b: u8) -> usize
    ensures { (result ≡ b) × (result < 256) }
{
    usize::from(b)
}

// The two bytes from `at` on, the first the higher. Every caller has tested the length.
pub fn word_at(bytes: &[u8], at: usize) -> usize
    requires { at + 1 < length bytes.now }
    ensures { (result ≡ word bytes.now at) × (result < 65536) }
{
    usize::from(u16::from_be_bytes([bytes[at], bytes[at + 1]]))
}

// The four bytes from `at` on, the first the highest. Every caller has tested the length.
pub fn long_at(bytes: &[u8], at: usize) -> usize
    requires { at + 3 < length bytes.now }
    ensures { (result ≡ long bytes.now at) × (result < 4294967296) }
{
    u32::from_be_bytes([bytes[at], bytes[at + 1], bytes[at + 2], bytes[at + 3]]) as usize
}

// The copying leaf: `bytes` into the front of `memory`. Every caller has room for them.
pub fn copy(memory: &mut [u8], bytes: &[u8])
    requires { length bytes.now ≤ length memory.old }
    ensures { memory.new ≡ written memory.old 0 bytes.now }
{
    for (i, byte) in bytes.iter().enumerate() {
        memory[i] = *byte;
    }
}

// N bytes from `at` on, through a block: all are read before any is written, so nobody need ask whether the two overlap.
fn copy_block<const N: usize>(memory: &mut [u8], bytes: &[u8], at: usize)
    requires { (at + N ≤ length bytes.now) × (length bytes.now ≤ length memory.old) }
    ensures { memory.new ≡ written memory.old at (take N (drop at bytes.now)) }
{
    let mut block = [0u8; N];
    let to = at + N;
    block.copy_from_slice(&bytes[at..to]);
    memory[at..to].copy_from_slice(&block);
}

// The bytes from `from` on to the same place of `memory`: in blocks of 32, and what is left byte by byte. Where the blocks end is known
// before the loop.
fn copy_small_blocks(memory: &mut [u8], bytes: &[u8], from: usize)
    requires { (from ≤ length bytes.now) × (length bytes.now ≤ length memory.old) }
    ensures { memory.new ≡ written memory.old from (drop from bytes.now) }
{
    let end = bytes.len() - (bytes.len() - from) % 32;
    // a place that is carried on: `step_by` takes 16 instructions more for a message segment of 64 bytes, of 290 (docs/PERFORMANCE.md)
    let mut at = from;
    while at < end {
        copy_block::<32>(memory, bytes, at);
        at += 32;
    }
    copy(&mut memory[at..], &bytes[at..]);
}

// The blocks of 128 at the front; how many bytes they are. A PDU's segment has at most 256 bytes, so the two blocks stand in the open, and no
// loop is unrolled.
fn copy_large_blocks(memory: &mut [u8], bytes: &[u8]) -> usize
    requires { length bytes.now ≤ length memory.old }
    ensures { (result ≤ length bytes.now) × (memory.new ≡ written memory.old 0 (take result bytes.now)) }
{
    if bytes.len() < 128 {
        return 0;
    }
    copy_block::<128>(memory, bytes, 0);
    if bytes.len() < 256 {
        return 128;
    }
    copy_block::<128>(memory, bytes, 128);
    256
}

// The same as `copy`: in blocks of 128, then in smaller ones.
fn copy_blocks(memory: &mut [u8], bytes: &[u8])
    requires { length bytes.now ≤ length memory.old }
    ensures { memory.new ≡ written memory.old 0 bytes.now }
{
    let at = copy_large_blocks(memory, bytes);
    copy_small_blocks(memory, bytes, at);
}

// The part of `memory` from `at` on is lent on to the copying leaf. Every caller has room for the bytes there.
pub fn store(memory: &mut [u8], at: usize, bytes: &[u8])
    requires { at + length bytes.now ≤ length memory.old }
    ensures { memory.new ≡ written memory.old at bytes.now }
{
    copy_blocks(&mut memory[at..], bytes);
}

// The lowest number under `count` that passes, if one does. The one walk over contexts of either kind.
pub fn lowest<F: Fn(usize) -> bool>(count: usize, passes: F) -> Option<usize>
    requires { (n : ℕ) → n < count → F.pre passes n }
    ensures found { IfSome result (λ n. (n < count) × F.post passes n true) }
    ensures before { (k : ℕ) → k < unwrap_or result count → F.post passes k false }
{
    for n in 0..count {
        if passes(n) {
            return Some(n);
        }
    }
    None
}
