// A table filled once per run: for each class the set of its characters below U+0800, one bit each, 16 to a number. It holds only characters that XML 1.0
// admits, so a text is held against both at once. What is lent behind the sets takes hints for the characters above.
ghost use Rattle.std.specs.Prelude.{◌≡◌, ℕ, ◌+◌, ◌-◌, ◌*◌, ◌%◌, min, ◌≤◌, ◌<◌, ◌^◌, ◌&&◌, ◌||◌, length};
ghost use Rattle.std.proofs.Math.Option.{none};
ghost use Rattle.rules.specs.Blocks.{stream_length};
ghost use Rattle.rules.specs.Lexeme.{within, is_xml_char};
ghost use Rattle.lexeme.specs.Sets.{bit_at, is_in, WordOf, ClassSet, Compiled, SetsLent, Added, XmlKept};

use crate::class::range_count;
use crate::hints::all_hints;
use crate::xml::is_xml_char;
use records::range::range_at;
use stream::Stream;

// The characters that a set tells apart: those that UTF-8 writes in one byte or two.
pub(crate) const CHARACTERS: usize = 2048;

// How many of them a number holds, and so how many numbers a set has.
const BITS: usize = 16;

pub(crate) const SET: usize = 128;

// All bits of a number.
const ALL: u16 = 0xffff;

// A table with room for 256 sets and for hints to the 8,064 ranges that a grammar could have; and one for grammars of few classes.
pub const TABLE: usize = 40832;

pub const SMALL_TABLE: usize = 4096;

// Bit x of a word, counted modulo 64.
#[tactic(auto, unfolding(crate::specs::Sets::bit_at))]
pub(crate) fn has(word: u64, x: usize) -> bool
    ensures { result ≡ bit_at word (x % 64) }
{
    (word >> (x % 64)) % 2 == 1
}

// Four numbers of a set in one word: the characters from 64 j on.
pub(crate) fn word(set: &[u16], j: usize) -> u64
    requires { 4 * j + 4 ≤ length set.now }
    ensures { WordOf set.now j result }
{
    let at = 4 * j;
    let a = u64::from(set[at]);
    let b = u64::from(set[at + 1]);
    let c = u64::from(set[at + 2]);
    let d = u64::from(set[at + 3]);
    a + 65536 * (b + 65536 * (c + 65536 * d))
}

// A number whose lowest k bits are 1.
fn ones(k: usize) -> u16
    requires { k ≤ 16 }
    ensures { result ≡ 2 ^ k - 1 }
{
    ((1u32 << k) - 1) as u16
}

// How many of the characters of number w are below x.
fn below(x: usize, w: usize) -> usize
    requires { w < 128 }
    ensures { result ≡ min 16 (x - 16 * w) }
{
    x.saturating_sub(BITS * w).min(BITS)
}

// The characters of number w from low to high.
fn mask(low: usize, high: usize, w: usize) -> u16
    requires { (w < 128) × (high < 2 ^ 32) }
    ensures { (j : ℕ) → j < 16 → bit_at result j ≡ within low high (16 * w + j) }
{
    !ones(below(low, w)) & ones(below(high + 1, w))
}

// Of the characters from low to high, those of number w go into a set.
fn add_at(set: &mut [u16], low: usize, high: usize, w: usize)
    requires { (length set.old ≡ 128) × (high < 2 ^ 32) }
    ensures { Added low high w set.old set.new }
{
    if w < SET {
        set[w] |= mask(low, high, w);
    }
}

// The characters from low to high go into a set: some of the first and of the last of their numbers, and all of those between. Of a class of
// thousands of ranges most lie wholly above what a set tells apart, and these have nothing to put into it.
fn add_range(set: &mut [u16], low: usize, high: usize)
    requires { (length set.old ≡ 128) × (high < 2 ^ 32) }
    ensures { (x : ℕ) → x < 2048 → is_in set.new x ≡ (is_in set.old x || within low high x) }
{
    if CHARACTERS <= low {
        return;
    }
    let from = low / BITS;
    let to = high / BITS;
    add_at(set, low, high, from);
    if from < to {
        set[from + 1..to.min(SET)].fill(ALL);
        add_at(set, low, high, to);
    }
}

// Of the 16 characters of number w, those that XML 1.0 admits.
fn xml_bits(w: usize) -> u16
    requires { w < 128 }
    ensures { (j : ℕ) → j < 16 → bit_at result j ≡ is_xml_char (16 * w + j) }
{
    let mut bits = 0;
    for j in 0..BITS {
        let x = BITS * w + j;
        if is_xml_char(x) {
            bits |= mask(x, x, w);
        }
    }
    bits
}

// Of the characters of number w, only those stay in a set.
fn keep_xml_at(set: &mut [u16], w: usize)
    requires { (length set.old ≡ 128) × (w < 128) }
    ensures { XmlKept w set.old set.new }
{
    set[w] &= xml_bits(w);
}

// Only characters that XML 1.0 admits stay in a set. Of those below U+0800 it refuses some of the first 32 and no other.
fn keep_xml(set: &mut [u16])
    requires { length set.old ≡ 128 }
    ensures { (x : ℕ) → x < 2048 → is_in set.new x ≡ (is_xml_char x && is_in set.old x) }
{
    keep_xml_at(set, 0);
    keep_xml_at(set, 1);
}

// The set of the class whose record is at p.
fn class_set(g: &Stream<'_>, p: u16, set: &mut [u16])
    requires { (length set.old ≡ 128) × (stream_length g.now ≡ none) }
    ensures { ClassSet g.now p set.new }
{
    set.fill(0);
    let first = usize::from(p) + 1;
    for k in 0..range_count(g, p) {
        let r = range_at(g, first + k);
        add_range(set, r.lowest, r.highest);
    }
    keep_xml(set);
}

// The sets of all classes, by their numbers: once per run. The hints go first, so that a set is in its place whatever they left there.
pub fn class_sets(g: &Stream<'_>, classes: &[u16], sets: &mut [u16])
    requires { SetsLent g.now classes.now sets.old }
    ensures { Compiled g.now sets.new }
{
    all_hints(g, classes, sets);
    for (n, p) in classes.iter().enumerate() {
        let from = SET * n;
        class_set(g, *p, &mut sets[from..from + SET]);
    }
}
