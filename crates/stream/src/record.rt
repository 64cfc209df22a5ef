// The fetch of a record, whole: by its index, or by a place that a scan carries from head to head.
ghost use Rattle.std.specs.Prelude.{◌≡◌, ℕ, ◌+◌, ◌*◌, ◌/◌, ◌≤◌, ◌<◌, ◌^◌, length};
ghost use Rattle.rules.specs.Records.{base};
ghost use Rattle.stream.specs.Record.{Fetched, record_at, place_of, Reach};

use crate::Stream;

// A record: byte 0, byte 1, and three words of 16 bits. Bytes 2 to 7 are the words' low and high bytes.
#[derive(Clone, Copy, Default)]
pub struct Record {
    pub kind: u8,
    pub a: u8,
    pub b: u16,
    pub c: u16,
    pub d: u16,
}

// Where a record lies: its address in the stream, and which of its block's 63 records it is.
#[derive(Clone, Copy)]
pub struct Place {
    pub at: usize,
    pub slot: usize,
}

// Up to here the quotient by 63 is one product. No stream has a record that far on: it has at most 8,064. And it is more than two numbers of 16 bits come
// to, so that of an index made of these the compiler sees that it is near, and leaves the test out.
pub(crate) const NEAR: usize = 262144;

// The block that record i is in: i / 63, by a product and a shift. 63 times 133,153 is 2^23 and 31 more. So of q whole blocks and r records more
// the product is q times 2^23, and 31 q + 133,153 r more, which stays below 2^23.
pub(crate) fn block_of(i: usize) -> usize
    requires { i ≤ 2 ^ 18 }
    ensures { result ≡ i / 63 }
{
    i * 133153 >> 23
}

// The same of any index. 64 records are a block and one record more: so for every 64 a block goes off, and one is left, until what is left is near.
fn block_anywhere(i: usize) -> usize
    ensures { result ≡ i / 63 }
{
    let mut blocks = 0;
    let mut left = i;
    while NEAR <= left {
        blocks += left / 64;
        left = left / 64 + left % 64;
    }
    blocks + block_of(left)
}

// The address of record i in its block: 8 bytes for each record before it, 8 for each block's head and check, and the head's 4.
pub(crate) fn address(i: usize, block: usize) -> usize
    requires { (block ≡ i / 63) × (i < 2 ^ 60) }
    ensures { result ≡ base i }
{
    8 * (i + block) + 4
}

// The record at an address, where its 8 bytes lie inside the slice.
fn inside(s: &[u8], at: usize) -> Record
    requires { at + 8 ≤ length s.now }
    ensures { result ≡ record_at s.now at }
{
    Record {
        kind: s[at],
        a: s[at + 1],
        b: u16::from_le_bytes([s[at + 2], s[at + 3]]),
        c: u16::from_le_bytes([s[at + 4], s[at + 5]]),
        d: u16::from_le_bytes([s[at + 6], s[at + 7]]),
    }
}

// The record at a place whose 8 bytes lie among those of a stream: nothing is tested, not even that blocks are whole.
pub fn fetch_in(s: &[u8], p: Place) -> Record
    requires { p.at + 8 ≤ length s.now }
    ensures { (i : ℕ) → p ≡ place_of i → Fetched s.now i result }
{
    let at = p.at;
    inside(s, at)
}

impl Stream<'_> {
    // Record i: two tests and one address. Blocks are whole, so that no record is cut short; past the end all fields are 0.
    pub fn fetch(&self, i: usize) -> Record
        ensures { Fetched self.now i result }
    {
        let s = self.bytes();
        if NEAR <= i {
            return Record::default();
        }
        let block = block_of(i);
        if block < s.len() / 512 {
            return inside(s, address(i, block));
        }
        Record::default()
    }

    // The record at a place.
    pub fn fetch_at(&self, p: Place) -> Record
        ensures { (i : ℕ) → p ≡ place_of i → Fetched self.now i result }
    {
        let s = self.bytes();
        let at = p.at;
        if s.len() <= at {
            return Record::default();
        }
        if s.len() - at < 8 {
            return Record::default();
        }
        inside(s, at)
    }

    // The record at a place whose 8 bytes lie in the stream: nothing is tested.
    pub fn fetch_in(&self, p: Place) -> Record
        requires { p.at + 8 ≤ length self.now }
        ensures { (i : ℕ) → p ≡ place_of i → Fetched self.now i result }
    {
        fetch_in(self.bytes(), p)
    }
}

// The place of record i: where a scan starts.
pub fn place_of(i: usize) -> Place
    requires { i < 2 ^ 60 }
    ensures { result ≡ place_of i }
{
    let block = block_anywhere(i);
    Place {
        at: address(i, block),
        slot: i - 63 * block,
    }
}

// The place n records on. Most steps stay in the block, and ask for no quotient.
pub fn forward(p: Place, n: usize) -> Place
    requires { Reach p n }
    ensures { (i : ℕ) → p ≡ place_of i → result ≡ place_of (i + n) }
{
    let slot = p.slot + n;
    if slot < 63 {
        return Place {
            at: p.at + 8 * n,
            slot,
        };
    }
    let blocks = block_anywhere(slot);
    Place {
        at: p.at + 8 * (n + blocks),
        slot: slot - 63 * blocks,
    }
}
