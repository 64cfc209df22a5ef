// The scan of a text, part by part: UTF-8 with its characters counted and held against a class as they come.
ghost use Rattle.std.specs.Prelude.{◌≡◌, cond, List, [], ℕ, Some, None, ◌+◌, ◌≤◌, ◌<◌, ◌^◌, length};
ghost use Rattle.rules.specs.Lexeme.{ranges, first_byte};
ghost use Rattle.lexeme.specs.Sets.{ClassSet};
ghost use Rattle.lexeme.specs.Scan.{midway, clean, judged, seen, scanned, LaterByte, Scans};
ghost use Rattle.lexeme.specs.Runs.{RunsTo};

use crate::class::in_class;
use crate::runs::{TextRun, run_from};
use crate::sets::{has, word};
use entities::first_bytes::{least_next, most_next};
use stream::Stream;

// Between two bytes, if all was well so far: how many bytes of a character are still due, the next of them from low to high, and its bits so
// far; and the characters before it.
#[derive(Clone, Copy)]
pub struct Scan {
    pub due: usize,
    pub low: u8,
    pub high: u8,
    pub bits: usize,
    pub count: usize,
}

// Inside a character.
fn inside(count: usize, due: usize, low: u8, high: u8, bits: usize) -> Scan
    ensures { result ≡ midway count due low high bits }
{
    Scan {
        due,
        low,
        high,
        bits,
        count,
    }
}

// Between two characters, or at the beginning of a text.
pub(crate) fn between(count: usize) -> Scan
    ensures { result ≡ clean count }
{
    inside(count, 0, 0, 0, 0)
}

// At the end of a character.
fn judge(admitted: bool, count: usize) -> Option<Scan>
    requires { count + 1 < 2 ^ 64 }
    ensures { result ≡ cond admitted (Some (clean (count + 1))) None }
{
    if admitted {
        Some(between(count + 1))
    } else {
        None
    }
}

// The bytes that can be the first of a character of several.
const LEAST_LEAD: u8 = 0xc2;

const MOST_LEAD: u8 = 0xf4;

// The first byte of a character of several.
fn lead(count: usize, b: u8) -> Option<Scan>
    requires { 0x80 ≤ b }
    ensures { (g rs : List ℕ) → result ≡ judged g rs count (first_byte [] b) }
{
    if b < LEAST_LEAD || MOST_LEAD < b {
        return None;
    }
    if b < 0xe0 {
        return Some(inside(count, 1, 0x80, 0xbf, usize::from(b - 0xc0)));
    }
    if b < 0xf0 {
        return Some(inside(count, 2, least_next(b), most_next(b), usize::from(b - 0xe0)));
    }
    Some(inside(count, 3, least_next(b), most_next(b), usize::from(b - 0xf0)))
}

fn first(g: &Stream<'_>, p: u16, set: &[u16], count: usize, b: u8) -> Option<Scan>
    requires class_set { ClassSet g.now p set.now }
    requires count_bound { count + 1 < 2 ^ 64 }
    ensures { result ≡ judged g.now (ranges g.now p) count (first_byte [] b) }
{
    if b < 0x80 {
        let x = usize::from(b);
        return judge(has(word(set, x / 64), x), count);
    }
    lead(count, b)
}

// A later byte of a character brings six bits. The class has so many ranges.
fn later(
    g: &Stream<'_>,
    p: u16,
    many: u16,
    set: &[u16],
    table: &[u16],
    s: Scan,
    b: u8,
) -> Option<Scan>
    requires { LaterByte g.now p many set.now s }
    ensures { result ≡ seen g.now (ranges g.now p) s b }
{
    if b < s.low || s.high < b {
        return None;
    }
    let bits = s.bits * 64 + usize::from(b - 0x80);
    if s.due == 1 {
        return judge(in_class(g, p, many, set, table, bits), s.count);
    }
    Some(inside(s.count, s.due - 1, 0x80, 0xbf, bits))
}

// How far the hot loops get from a place between two characters. A byte that begins a character of three or four isn't for them.
fn ahead(part: &[u8], from: usize, set: &[u16]) -> TextRun
    requires { (from < length part.now) × (length set.now ≡ 128) }
    ensures { RunsTo set.now part.now from result.at result.count }
{
    if 0xe0 <= part[from] {
        return TextRun { at: from, count: 0 };
    }
    run_from(part, from, set)
}

// One part of a text, from the state that the part before it left. Runs of characters of one and two bytes go through the hot loops; what they
// leave, longer characters and the borders of blocks, goes byte by byte; inside a character no run is looked for. The class has so many ranges: who
// fetched its head hands their number on, so that it isn't fetched for each character.
pub(crate) fn scan_part(
    g: &Stream<'_>,
    p: u16,
    many: u16,
    set: &[u16],
    table: &[u16],
    part: &[u8],
    start: Scan,
) -> Option<Scan>
    requires { Scans g.now p many set.now start }
    ensures { result ≡ scanned g.now (ranges g.now p) start part.now }
{
    let mut s = start;
    let mut i = 0;
    // The index jumps behind runs, so no iterator has it.
    while i < part.len() {
        if s.due != 0 {
            s = later(g, p, many, set, table, s, part[i])?;
            i += 1;
            continue;
        }
        let run = ahead(part, i, set);
        let count = s.count + run.count;
        if part.len() <= run.at {
            return Some(between(count));
        }
        s = first(g, p, set, count, part[run.at])?;
        i = run.at + 1;
    }
    Some(s)
}
