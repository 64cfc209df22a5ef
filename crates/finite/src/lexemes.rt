// Which classes have a lexeme: found once for each class, however many elements name it.
ghost use Rattle.std.specs.Prelude.{◌≡◌, ◌≤◌};
ghost use Rattle.rules.specs.Records.{row};
ghost use Rattle.rules.specs.Finite.{overlap, overlap_some, xml_intervals, has_character, some_character, plain_has_lexeme, has_lexeme};
ghost use Rattle.finite.specs.Found.{ClassesAsk, ClassAsks, is_noted, Noted};

use records::class::is_escaped;
use records::range::range_at;
use stream::Stream;

// So many classes a grammar has at most.
const CLASSES: usize = 256;

// Whether some number is in both of two intervals that aren't empty, from lowest to highest and from one to another.
#[tactic(auto, unfolding(rules::specs::Finite::overlap))]
fn overlap(lowest: usize, highest: usize, from: usize, to: usize) -> bool
    ensures { result ≡ overlap lowest highest (from, to) }
{
    lowest <= to && from <= highest
}

// The characters that XML 1.0 admits.
const XML: [(usize, usize); 6] = [
    (0x9, 0x9),
    (0xa, 0xa),
    (0xd, 0xd),
    (0x20, 0xd7ff),
    (0xe000, 0xfffd),
    (0x10000, 0x10ffff),
];

// Whether an interval that isn't empty holds one of these characters: by their intervals, not character by character.
fn holds_xml(lowest: usize, highest: usize) -> bool
    ensures { result ≡ overlap_some lowest highest xml_intervals }
{
    XML.iter()
        .any(|&(from, to)| overlap(lowest, highest, from, to))
}

// Whether the range at r holds one.
#[tactic(auto, unfolding(rules::specs::Finite::has_character))]
fn has_character(g: &Stream<'_>, r: usize) -> bool
    ensures { result ≡ has_character g.now r }
{
    let range = range_at(g, r);
    range.lowest <= range.highest && holds_xml(range.lowest, range.highest)
}

// Whether one of so many ranges from record first on does.
fn some_character(g: &Stream<'_>, first: usize, count: u16) -> bool
    requires { first ≤ 65536 }
    ensures { result ≡ some_character g.now (row count first) }
{
    let end = first + count as usize;
    (first..end).any(|r| has_character(g, r))
}

// Whether the plain class at p has a lexeme: the empty one, or one of so many characters.
#[tactic(auto, unfolding(rules::specs::Finite::plain_has_lexeme, rules::specs::Lexeme::ranges))]
fn plain_has_lexeme(g: &Stream<'_>, p: u16) -> bool
    ensures { result ≡ plain_has_lexeme g.now p }
{
    let head = g.fetch(p as usize);
    head.b <= head.c && (head.b == 0 || some_character(g, p as usize + 1, head.d))
}

// Whether class c has one, by what is noted of the classes.
#[tactic(auto, unfolding(crate::specs::Found::is_noted))]
pub(crate) fn is_noted(lexemes: &[bool], c: u16) -> bool
    ensures { result ≡ is_noted lexemes.now c }
{
    lexemes.get(c as usize).copied().unwrap_or(false)
}

// Whether class n has one, whose head is at p. An escaped class has one if the plain class has that it names: an earlier one, which is noted.
fn has_lexeme(g: &Stream<'_>, n: usize, p: u16, lexemes: &[bool]) -> bool
    requires { ClassAsks g.now n p lexemes.now }
    ensures { result ≡ has_lexeme g.now n }
{
    let head = g.fetch(p as usize);
    if is_escaped(head) {
        return is_noted(lexemes, head.b);
    }
    plain_has_lexeme(g, p)
}

// Whether each class has a lexeme, by its number.
pub(crate) fn class_lexemes(g: &Stream<'_>, classes: &[u16]) -> [bool; CLASSES]
    requires { ClassesAsk g.now classes.now }
    ensures { Noted g.now result }
{
    let mut lexemes = [false; CLASSES];
    for (n, &p) in classes.iter().enumerate() {
        lexemes[n] = has_lexeme(g, n, p, &lexemes);
    }
    lexemes
}
