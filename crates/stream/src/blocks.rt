ghost use Rattle.std.specs.Prelude.{◌≡◌, ◌&&◌, ◌+◌, ◌*◌, ◌/◌, ◌≤◌, length, take};
ghost use Rattle.rules.specs.Blocks.{check_of, stream_length, block, start_of, block_right, stream_blocks};
ghost use Rattle.stream.specs.Block.{check_due, Starts, Checks};
ghost use Rattle.stream.specs.Fault.{fault_of, fault_from};

use crate::block::{check_of, is_sound_by, word_at};
use crate::fnv::{Four, START, fnv1a, fnv1a_four};

// Refusal 1 of a stream: its length.
pub fn length_fault(s: &[u8]) -> Result<(), usize>
    ensures { fault_of result ≡ stream_length s.now }
{
    let n = s.len();
    if n < 1 || 65536 < n || n % 512 != 0 {
        return Err(0);
    }
    Ok(())
}

// Block n.
fn block_at(s: &[u8], n: usize) -> &[u8]
    requires { 512 * n + 512 ≤ length s.now }
    ensures { (result.now ≡ block s.now n) × (length result.now ≡ 512) }
{
    let from = 512 * n;
    let to = from + 512;
    &s[from..to]
}

// The bytes of block n that its check is made of.
fn covered(s: &[u8], n: usize) -> &[u8]
    requires { 512 * n + 512 ≤ length s.now }
    ensures { (result.now ≡ take 508 (block s.now n)) × (length result.now ≡ 508) }
{
    let b = block_at(s, n);
    &b[0..508]
}

// The check that block n has.
fn check_at(s: &[u8], n: usize) -> u32
    requires { 512 * n + 512 ≤ length s.now }
    ensures { result ≡ check_of (block s.now n) }
{
    check_of(block_at(s, n))
}

// Where the check of block n starts.
fn start_at(s: &[u8], n: usize) -> u32
    requires { 512 * n ≤ length s.now }
    ensures { result ≡ start_of s.now n }
{
    if n == 0 {
        return START;
    }
    check_at(s, n - 1)
}

// Where the checks of four blocks in a row start. Where the check that a block has is wrong, so is the block, and those after it do not count.
fn starts_from(s: &[u8], n: usize) -> Four
    requires { 512 * n + 2048 ≤ length s.now }
    ensures { Starts s.now n result }
{
    Four {
        a: start_at(s, n),
        b: check_at(s, n),
        c: check_at(s, n + 1),
        d: check_at(s, n + 2),
    }
}

// The checks that four blocks in a row should have, made at once.
fn checks_from(s: &[u8], n: usize) -> Four
    requires { 512 * n + 2048 ≤ length s.now }
    ensures { Checks s.now n result }
{
    fnv1a_four(
        starts_from(s, n),
        covered(s, n),
        covered(s, n + 1),
        covered(s, n + 2),
        covered(s, n + 3),
    )
}

// Refusal 2 of one block, where the check that it should have is in hand: its number, kind, byte 3 and check. A block past 65,535 never has
// its number, which is of 16 bits.
fn is_right_by(kind: u8, s: &[u8], n: usize, check: u32) -> bool
    requires { (512 * n + 512 ≤ length s.now) × (check ≡ check_due s.now n) }
    ensures { result ≡ block_right kind s.now n }
{
    let b = block_at(s, n);
    word_at(b, 0) == n && is_sound_by(kind, b, check)
}

// Refusal 2 of one block.
fn is_right(kind: u8, s: &[u8], n: usize) -> bool
    requires { 512 * n + 512 ≤ length s.now }
    ensures { result ≡ block_right kind s.now n }
{
    is_right_by(kind, s, n, fnv1a(start_at(s, n), covered(s, n)))
}

// Refusal 2 of four blocks in a row.
fn are_right(kind: u8, s: &[u8], n: usize) -> bool
    requires { 512 * n + 2048 ≤ length s.now }
    ensures { result ≡ (block_right kind s.now n && (block_right kind s.now (n + 1) && (block_right kind s.now (n + 2) && block_right kind s.now (n + 3)))) }
{
    let checks = checks_from(s, n);
    is_right_by(kind, s, n, checks.a)
        && is_right_by(kind, s, n + 1, checks.b)
        && is_right_by(kind, s, n + 2, checks.c)
        && is_right_by(kind, s, n + 3, checks.d)
}

// Refusal 2 of the blocks from one on, each by itself.
fn fault_from(kind: u8, s: &[u8], first: usize) -> Result<(), usize>
    ensures { fault_of result ≡ fault_from kind s.now (length s.now / 512) first }
{
    for n in first..s.len() / 512 {
        if !is_right(kind, s, n) {
            return Err(n);
        }
    }
    Ok(())
}

// Refusal 2 of a stream: the number of its first block that is not right. Four at a time as long as they are right; the rest, or the four
// among which one is wrong, one by one.
pub fn block_fault(kind: u8, s: &[u8]) -> Result<(), usize>
    ensures { fault_of result ≡ stream_blocks kind s.now }
{
    let blocks = s.len() / 512;
    let mut n = 0;
    // A step of four, and the first four among which one is wrong are gone over from there: a `for` would have to hand n on.
    while n + 4 <= blocks {
        if !are_right(kind, s, n) {
            return fault_from(kind, s, n);
        }
        n += 4;
    }
    fault_from(kind, s, n)
}
