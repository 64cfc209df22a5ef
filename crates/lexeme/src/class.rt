// A code point against a class: by the class's set below 2,048, by its ranges above, which hints make fast to search.
ghost use Rattle.std.specs.Prelude.{◌≡◌, true, ◌≤◌, ◌<◌, length};
ghost use Rattle.rules.specs.Records.{field_d};
ghost use Rattle.rules.specs.Lexeme.{within, ranges, in_some, is_of_class};
ghost use Rattle.lexeme.specs.Sets.{ClassSet};

use crate::hints::{MANY, area, find, guess};
use crate::sets::{CHARACTERS, has, word};
use crate::xml::is_xml_char;
use records::range::{Range, range_at};
use stream::Stream;

fn is_between(r: Range, x: usize) -> bool
    ensures { result ≡ within r.lowest r.highest x }
{
    r.lowest <= x && x <= r.highest
}

pub(crate) fn range_count(g: &Stream<'_>, p: u16) -> usize
    ensures { (result ≡ field_d g.now p) × (result < 65536) }
{
    usize::from(g.fetch(usize::from(p)).d)
}

// Whether x is in some range of the class whose record is at p: all of them, which are so many, in their order.
fn search(g: &Stream<'_>, p: u16, count: usize, x: usize) -> bool
    requires { (count ≡ field_d g.now p) × (count < 65536) }
    ensures { result ≡ in_some g.now (ranges g.now p) x }
{
    let first = usize::from(p) + 1;
    (first..first + count).any(|i| is_between(range_at(g, i), x))
}

// Whether range k of the class has x.
fn is_kth(g: &Stream<'_>, p: u16, count: usize, k: usize, x: usize) -> bool
    requires { (count ≡ field_d g.now p) × (k < 65536) }
    ensures { result ≡ true → in_some g.now (ranges g.now p) x ≡ true }
{
    k < count && is_between(range_at(g, usize::from(p) + 1 + k), x)
}

// Whether a range that the hints name has x: of many ranges the one that their pace leads to, then the one that a search among the hints finds.
fn is_hinted(g: &Stream<'_>, p: u16, count: usize, hints: &[u16], pace: u16, x: usize) -> bool
    requires count_value { count ≡ field_d g.now p }
    requires hints_nonzero { (0 < length hints.now) × (length hints.now ≤ 65536) }
    ensures { result ≡ true → in_some g.now (ranges g.now p) x ≡ true }
{
    let first = usize::from(p) + 1;
    let is_guessed = MANY <= hints.len() && is_kth(g, p, count, guess(g, first, hints, pace, x), x);
    is_guessed || is_kth(g, p, count, find(g, first, hints, x), x)
}

// First where a hint says, then everywhere. Only a code point of no range, or a table with no room for hints, costs more than the search for a hint.
fn in_ranges(g: &Stream<'_>, p: u16, count: usize, table: &[u16], x: usize) -> bool
    requires { (count ≡ field_d g.now p) × (count < 65536) }
    ensures { result ≡ in_some g.now (ranges g.now p) x }
{
    if let Some(hints) = area(p, count, table.len()) {
        let pace = table[hints.end];
        if is_hinted(g, p, count, &table[hints], pace, x) {
            return true;
        }
    }
    search(g, p, count, x)
}

// Whether x is a character of the class: at most 2,047 by its bit in the set, any other by the ranges, which are so many, and by XML 1.0.
#[tactic(auto, unfolding(rules::specs::Lexeme::is_of_class))]
pub(crate) fn in_class(
    g: &Stream<'_>,
    p: u16,
    count: u16,
    set: &[u16],
    table: &[u16],
    x: usize,
) -> bool
    requires class_set { ClassSet g.now p set.now }
    requires count_value { count ≡ field_d g.now p }
    ensures { result ≡ is_of_class g.now (ranges g.now p) x }
{
    if x < CHARACTERS {
        return has(word(set, x / 64), x);
    }
    is_xml_char(x) && in_ranges(g, p, usize::from(count), table, x)
}
