ghost use Rattle.std.specs.Prelude.{◌≡◌, ◌++◌, [], ◌∷◌, ◌+◌, ◌*◌, ◌/◌, ◌≤◌, length, drop, replicate};
ghost use Rattle.rules.specs.Blocks.{check_of, packed_block, packed, payload_length, unpacked};
ghost use Rattle.rules.specs.Answers.{pack, unpack};
ghost use Rattle.stream.specs.Fault.{fault_of};

use crate::answer::{finished, refused};
use crate::block::is_kind;
use crate::blocks::{block_fault, length_fault};
use crate::copy::copy_into;
use crate::fnv::{START, fnv1a};
use rules::Answer;

// Every writer here fills the beginning of what it is lent and leaves the rest as it was.

// n zeros.
fn put_zeros(n: usize, out: &mut [u8])
    requires { n ≤ length out.old }
    ensures { out.new ≡ replicate n 0 ++ drop n out.old }
{
    out[..n].fill(0);
}

// Four bytes.
fn put_four(a: u8, b: u8, c: u8, d: u8, out: &mut [u8])
    requires { 4 ≤ length out.old }
    ensures { out.new ≡ (a ∷ b ∷ c ∷ d ∷ []) ++ drop 4 out.old }
{
    out[..4].copy_from_slice(&[a, b, c, d]);
}

// A block: its head, the payload, zeros as far as the check, and the check of all these from a start. It answers the check, from which the next
// block starts.
fn put_block(kind: u8, start: u32, n: usize, payload: &[u8], out: &mut [u8]) -> u32
    requires { (512 ≤ length out.old) × (length payload.now ≤ 504) }
    ensures { (result ≡ check_of (packed_block kind start n payload.now)) × (out.new ≡ packed_block kind start n payload.now ++ drop 512 out.old) }
{
    put_four((n % 256) as u8, (n / 256 % 256) as u8, kind, 0, out);
    copy_into(payload, &mut out[4..]);
    let end = 4 + payload.len();
    put_zeros(508 - end, &mut out[end..]);
    let check = fnv1a(start, &out[0..508]);
    copy_into(&check.to_le_bytes(), &mut out[508..]);
    check
}

// The blocks of a payload.
fn put_blocks(kind: u8, payload: &[u8], out: &mut [u8])
    requires { 512 * ((length payload.now + 503) / 504) ≤ length out.old }
    ensures { out.new ≡ packed kind payload.now ++ drop (length (packed kind payload.now)) out.old }
{
    let blocks = (payload.len() + 503) / 504;
    let mut start = START;
    // By number, which the block has in its head; the payload of the last one may be short.
    for n in 0..blocks {
        let from = 504 * n;
        let to = (from + 504).min(payload.len());
        let at = 512 * n;
        start = put_block(kind, start, n, &payload[from..to], &mut out[at..]);
    }
}

// The payloads of a stream.
fn put_payloads(s: &[u8], out: &mut [u8])
    requires { 504 * (length s.now / 512) ≤ length out.old }
    ensures { out.new ≡ unpacked s.now ++ drop (length (unpacked s.now)) out.old }
{
    for n in 0..s.len() / 512 {
        let from = 512 * n + 4;
        let to = from + 504;
        let at = 504 * n;
        copy_into(&s[from..to], &mut out[at..]);
    }
}

// Refusal 1 of packing: the payload's length.
fn payload_fault(payload: &[u8]) -> Result<(), usize>
    ensures { fault_of result ≡ payload_length payload.now }
{
    let n = payload.len();
    if n < 8 || 64512 < n || n % 8 != 0 {
        return Err(0);
    }
    Ok(())
}

// A payload as a stream of a kind.
pub fn pack(kind: u8, payload: &[u8], out: &mut [u8]) -> Answer
    ensures { (result ≡ (pack kind payload.now out.old).result) × (out.new ≡ (pack kind payload.now out.old).output) }
{
    if let Err(place) = payload_fault(payload) {
        return refused(1, 0, place);
    }
    if !is_kind(kind) {
        return refused(2, 0, 0);
    }
    let bytes = 512 * ((payload.len() + 503) / 504);
    if out.len() < bytes {
        return refused(12, 0, 0);
    }
    put_blocks(kind, payload, out);
    finished(0, bytes)
}

// The payloads of a stream that must be of a kind.
pub fn unpack(kind: u8, s: &[u8], out: &mut [u8]) -> Answer
    ensures { (result ≡ (unpack kind s.now out.old).result) × (out.new ≡ (unpack kind s.now out.old).output) }
{
    if let Err(place) = length_fault(s) {
        return refused(1, 0, place);
    }
    if !is_kind(kind) {
        return refused(2, 0, 0);
    }
    if let Err(place) = block_fault(kind, s) {
        return refused(2, 0, place);
    }
    let bytes = 504 * (s.len() / 512);
    if out.len() < bytes {
        return refused(12, 0, 0);
    }
    put_payloads(s, out);
    finished(0, bytes)
}
