ghost use Rattle.std.specs.Prelude.{◌≡◌, length};
ghost use Rattle.std.specs.Int.Bits.{bit_xor};
ghost use Rattle.rules.specs.Blocks.{multiplied, fnv1a};
ghost use Rattle.stream.specs.Fnv.{Hashed};

// Where the check of block 0 starts.
pub const START: u32 = 2166136261;

// The multiply step, by 16777619 modulo 2^32: the product is taken in 64 bits, so nothing wraps before the remainder is taken.
pub fn multiply(h: u32) -> u32
    ensures { result ≡ multiplied h }
{
    ((h as u64) * 16777619 % 4294967296) as u32
}

// One byte more.
fn step(h: u32, byte: u8) -> u32
    ensures { result ≡ multiplied (bit_xor h byte) }
{
    multiply(h ^ (byte as u32))
}

// 32-bit FNV-1a of s from a given start, so that one part can go on where another ended.
pub fn fnv1a(start: u32, s: &[u8]) -> u32
    ensures { result ≡ fnv1a start s.now }
{
    let mut h = start;
    for byte in s {
        h = step(h, *byte);
    }
    h
}

// A number for each of four parts, in their order: where its check starts, or the check.
#[derive(Clone, Copy)]
pub struct Four {
    pub a: u32,
    pub b: u32,
    pub c: u32,
    pub d: u32,
}

// FNV-1a of four parts of one length, each from its own start. Within a part each multiply waits for the one before it; those of the other parts
// are done meanwhile.
pub(crate) fn fnv1a_four(starts: Four, a: &[u8], b: &[u8], c: &[u8], d: &[u8]) -> Four
    requires { (length b.now ≡ length a.now) × (length c.now ≡ length a.now) × (length d.now ≡ length a.now) }
    ensures { Hashed starts a.now b.now c.now d.now result }
{
    let mut w = starts.a;
    let mut x = starts.b;
    let mut y = starts.c;
    let mut z = starts.d;
    // An index: four zips would be no plainer.
    for i in 0..a.len() {
        w = step(w, a[i]);
        x = step(x, b[i]);
        y = step(y, c[i]);
        z = step(z, d[i]);
    }
    Four {
        a: w,
        b: x,
        c: y,
        d: z,
    }
}
