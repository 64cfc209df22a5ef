ghost use Rattle.std.specs.Prelude.{◌≡◌, ◌&&◌, ◌+◌, min, ◌≤◌, ◌<◌, eqb, length, get_or};
ghost use Rattle.rules.specs.Records.{word};
ghost use Rattle.rules.specs.Blocks.{word32, check_of, is_kind, sound, block_payload};
ghost use Rattle.stream.specs.Block.{sound_by};

use crate::fnv::fnv1a;

// The 16 bits at a place, little-endian.
pub(crate) fn word_at(b: &[u8], at: usize) -> usize
    requires { at + 1 < length b.now }
    ensures { (result ≡ word b.now at) × (result < 65536) }
{
    usize::from(u16::from_le_bytes([b[at], b[at + 1]]))
}

// 1 grammar, 2 templates, 3 value. A number, and no enum: C hands it to pack and unpack, a block has it as a byte, and any other one is refusal 2.
pub(crate) fn is_kind(kind: u8) -> bool
    ensures { result ≡ is_kind kind }
{
    1 <= kind && kind <= 3
}

// The check that a block has.
pub(crate) fn check_of(b: &[u8]) -> u32
    requires { 512 ≤ length b.now }
    ensures { result ≡ check_of b.now }
{
    u32::from_le_bytes([b[508], b[509], b[510], b[511]])
}

// The kind, byte 3 and the check of a block, where the check that it should have is in hand; its number is left to the caller.
pub(crate) fn is_sound_by(kind: u8, b: &[u8], check: u32) -> bool
    requires { 512 ≤ length b.now }
    ensures { result ≡ sound_by kind check b.now }
{
    b[2] == kind && b[3] == 0 && check_of(b) == check
}

// The same of a block by itself, whose check starts from a number in hand.
fn is_sound(kind: u8, b: &[u8], start: u32) -> bool
    requires { 512 ≤ length b.now }
    ensures { result ≡ sound kind start b.now }
{
    is_sound_by(kind, b, fnv1a(start, &b[0..508]))
}

// Whether a block by itself hands back its payload.
fn is_single(b: &[u8], start: u32) -> bool
    ensures { result ≡ (eqb (length b.now) 512 && (is_kind (get_or b.now 2 0) && sound (get_or b.now 2 0) start b.now)) }
{
    if b.len() != 512 {
        return false;
    }
    let kind = b[2];
    is_kind(kind) && is_sound(kind, b, start)
}

// The payload of a single block, as a part of the caller's slice: the 504 bytes that begin at byte 4 of the lent memory, or none of it,
// at its beginning, where the block is not right. Its check starts from `start`, any number: from START for block 0 of a stream, for each other
// from the check of the block before it.
pub fn block_payload(block: &[u8], start: u32) -> &[u8]
    ensures { (result.now ≡ block_payload block.now start) × (result.ref_ptr ≡ (block.entry.ref_ptr.0, min 4 (length result.now) + block.entry.ref_ptr.1)) }
{
    if is_single(block, start) {
        &block[4..508]
    } else {
        &block[0..0]
    }
}
