// What the layout of every stream asks: the rest of a text's last unit is zero, and so are the records after the last thing.
ghost use Rattle.std.specs.Prelude.{◌≡◌, ℕ, List, ◌+◌, ◌-◌, ◌≤◌, ◌<◌, ◌^◌, drop};
ghost use Rattle.rules.specs.Records.{record_count, records_from, padding_of, units, zeros};
ghost use Rattle.rules.specs.Layout.{tail_right};
ghost use Rattle.stream.specs.Record.{bytes_of, Fetched};
ghost use Rattle.stream.specs.Whole.{Whole};
ghost use Rattle.stream.specs.declared.record.Record.{Record};
ghost use Rattle.layout.specs.Common.{number_of};

use records::element::units;
use stream::Stream;
use stream::record::{Record, forward, place_of};

// A block's bytes, and the records that it carries.
const BLOCK_BYTES: usize = 512;

const BLOCK_RECORDS: usize = 63;

// The 8 bytes of a record as one number, the first the lowest: one load, where this is inlined.
fn number_of(r: Record) -> u64
    ensures { result ≡ number_of (bytes_of r) }
{
    let words = r.b as u64 + 65536 * (r.c as u64) + 4294967296 * (r.d as u64);
    r.kind as u64 + 256 * (r.a as u64) + 65536 * words
}

// What a stream's type says of its bytes, for a proof: it costs nothing.
pub fn whole(s: &Stream<'_>)
    ensures { Whole s.now }
{
    let _ = s.bytes();
}

// How many records a stream has.
pub fn record_count(s: &Stream<'_>) -> usize
    ensures { result ≡ record_count s.now }
{
    s.bytes().len() / BLOCK_BYTES * BLOCK_RECORDS
}

// The bytes of a record from byte j on are zero.
pub fn zero_from(r: Record, j: usize) -> bool
    requires { j ≤ 8 }
    ensures { result ≡ zeros (drop j (bytes_of r)) }
{
    j == 8 || number_of(r) >> (8 * j) == 0
}

// The padding of a text of b bytes: what is left of its last unit, which alone is looked at. It is the unit so many records after the text's head.
pub fn padded<F: FnOnce(usize) -> Record>(b: u16, unit: F) -> bool
    requires { (n : ℕ) → n ≡ units b → F.pre unit n }
    ensures { (s : List ℕ) → (p : ℕ) → ((n : ℕ) → (r : Record) → n ≡ units b → F.post unit n r → Fetched s (p + n) r) → result ≡ zeros (padding_of s b p) }
{
    let over = usize::from(b) % 8;
    over == 0 || zero_from(unit(units(usize::from(b))), over)
}

// The records from p up to record n are zero.
fn zero_records(s: &Stream<'_>, p: usize, n: usize) -> bool
    requires { (p ≤ n) × (n < 2 ^ 60) }
    ensures { result ≡ zeros (records_from s.now (n - p) p) }
{
    let mut at = place_of(p);
    for _ in p..n {
        if !zero_from(s.fetch_at(at), 0) {
            return false;
        }
        at = forward(at, 1);
    }
    true
}

// The last thing ends at record p, and after it come zero records only, fewer than 63.
pub fn tail_right(s: &Stream<'_>, p: usize) -> bool
    ensures { result ≡ tail_right s.now p }
{
    whole(s);
    let n = record_count(s);
    0 < p && p <= n && n - p < BLOCK_RECORDS && zero_records(s, p, n)
}
