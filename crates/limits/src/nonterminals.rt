// Sets of nonterminals, such as those that exist: a bit for each of the 65,536 numbers, so that no name is looked for among the productions.
ghost use Rattle.std.specs.Prelude.{◌≡◌};
ghost use Rattle.limits.specs.Tables.{ProductionTable};
ghost use Rattle.limits.specs.Bits.{is_marked, marked, Nonterminals};

use stream::Stream;

// The words of 64 bits that have a bit for each number.
pub const WORDS: usize = 1024;

// Whether the bit of n is set.
#[tactic(auto, unfolding(crate::specs::Bits::is_marked))]
pub fn is_marked(bits: &[u64; WORDS], n: u16) -> bool
    ensures { result ≡ is_marked bits.now n }
{
    let at = n as usize;
    let word = bits[at / 64];
    (word >> (at % 64)) % 2 == 1
}

// Sets the bit of n.
pub fn mark(bits: &mut [u64; WORDS], n: u16)
    ensures { bits.new ≡ marked bits.old n }
{
    let at = n as usize;
    bits[at / 64] |= 1 << (at % 64);
}

// The nonterminals that the productions are of.
pub fn nonterminals(g: &Stream<'_>, productions: &[u16]) -> [u64; WORDS]
    requires { ProductionTable g.now productions.now }
    ensures { Nonterminals g.now result }
{
    let mut bits = [0u64; WORDS];
    for &p in productions {
        let head = g.fetch(p as usize);
        mark(&mut bits, head.b);
    }
    bits
}
