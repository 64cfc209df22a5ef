// Runs of characters of one and two bytes that a class admits: the hot loops. Each byte is tested by one bit of a word, which is looked up by
// the byte's two highest bits. No loop has to find the longest run: what stands behind a run is left to the scan.
ghost use Rattle.std.specs.Prelude.{◌≡◌, true, ◌+◌, ◌/◌, ◌≤◌, ◌<◌, length, get_or};
ghost use Rattle.lexeme.specs.Runs.{admitted, Plain, RunsTo};

use crate::sets::{has, word};

// The leads 0xc2 to 0xdf, in the word of the bytes from 0xc0 on.
const LEADS: u64 = 0xffff_fffc;

// The place behind a run, and the number of its characters.
#[derive(Clone, Copy)]
pub struct TextRun {
    pub at: usize,
    pub count: usize,
}

// Whether words 0 to 3, two of the class and two of zeros, admit the byte at i.
#[tactic(auto, unfolding(crate::specs::Runs::admitted))]
fn is_in(part: &[u8], i: usize, words: &[u64; 4]) -> bool
    requires { i < length part.now }
    ensures { result ≡ admitted words.now (get_or part.now i 0) }
{
    let b = usize::from(part[i]);
    has(words[b / 64], b)
}

fn are_in(part: &[u8], i: usize, words: &[u64; 4]) -> bool
    requires { i + 4 ≤ length part.now }
    ensures { result ≡ true → Plain words.now part.now i (i + 4) }
{
    is_in(part, i, words)
        && is_in(part, i + 1, words)
        && is_in(part, i + 2, words)
        && is_in(part, i + 3, words)
}

fn by_one(part: &[u8], from: usize, words: &[u64; 4]) -> usize
    requires { from ≤ length part.now }
    ensures { Plain words.now part.now from result }
{
    for i in from..part.len() {
        if !is_in(part, i, words) {
            return i;
        }
    }
    part.len()
}

// Four bytes a turn. Where fewer than four are left at the end, the last turn goes back and tests some bytes twice, so that it needs no loop.
fn by_four(part: &[u8], from: usize, words: &[u64; 4]) -> usize
    requires { from ≤ length part.now }
    ensures { Plain words.now part.now from result }
{
    let mut i = from;
    // A step of four, whose last turn may go back: chunks would have to say where they stopped.
    while i + 4 <= part.len() {
        if !are_in(part, i, words) {
            return by_one(part, i, words);
        }
        i += 4;
    }
    if i < from + 4 {
        return by_one(part, i, words);
    }
    if are_in(part, part.len() - 4, words) {
        return part.len();
    }
    by_one(part, i, words)
}

// 1 for a byte that is the first of several.
fn is_lead(b: usize) -> usize
    requires { b < 256 }
    ensures { result ≡ b / 192 }
{
    if b < 192 { 0 } else { 1 }
}

// Characters of one and two bytes. Words 0 to 3 test a byte that begins a character: two words of the class for ASCII, none for 0x80 to 0xbf,
// and the leads 0xc2 to 0xdf. Words 4 to 7 test the byte after a lead, which is from 0x80 to 0xbf: word 6 is the lead's word of the class. So no
// branch depends on how long a character is, which no processor foresees in Greek text.
fn mixed(part: &[u8], from: usize, set: &[u16]) -> TextRun
    requires { (from ≤ length part.now) × (length set.now ≡ 128) }
    ensures { RunsTo set.now part.now from result.at result.count }
{
    let mut words = [word(set, 0), word(set, 1), 0, LEADS, 0, 0, 0, 0];
    let mut lead = 0;
    let mut leads = 0;
    for i in from..part.len() {
        let b = usize::from(part[i]);
        if !has(words[4 * lead + b / 64], b) {
            return TextRun {
                at: i - lead,
                count: i - from - leads,
            };
        }
        words[6] = word(set, b % 32);
        lead = is_lead(b);
        leads += lead;
    }
    TextRun {
        at: part.len() - lead,
        count: part.len() - from - leads,
    }
}

// A run from a place between two characters. Plain ASCII goes first: it has the faster loop.
pub(crate) fn run_from(part: &[u8], from: usize, set: &[u16]) -> TextRun
    requires { (from ≤ length part.now) × (length set.now ≡ 128) }
    ensures { RunsTo set.now part.now from result.at result.count }
{
    let words = [word(set, 0), word(set, 1), 0, 0];
    let at = by_four(part, from, &words);
    if part.len() <= at {
        return TextRun {
            at,
            count: at - from,
        };
    }
    let rest = mixed(part, at, set);
    TextRun {
        at: rest.at,
        count: at - from + rest.count,
    }
}
