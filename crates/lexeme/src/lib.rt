// Lexemes: well-formed UTF-8 with a number of characters from least to most, each in some range of a class and one that XML 1.0 admits. An escaped class
// has the escaped forms of the lexemes of a plain class.
#![tactic(auto)]

ghost use Rattle.std.specs.Prelude.{◌≡◌, false, ℕ};
ghost use Rattle.std.proofs.Math.Option.{some};
ghost use Rattle.rules.specs.Records.{field_b, text_of};
ghost use Rattle.rules.specs.Grammar.{class};
ghost use Rattle.rules.specs.Faults.{on_found};
ghost use Rattle.rules.specs.Escape.{unescaped};
ghost use Rattle.rules.specs.Lexeme.{is_plain_lexeme, is_lexeme};
ghost use Rattle.stream.specs.Text.{text_in};
ghost use Rattle.lexeme.specs.Sets.{ClassSet, LexemesReady};
ghost use Rattle.lexeme.specs.Sources.{ClassesLent, SourceOf, plain_in, admitted};

mod class;
mod hints;
mod runs;
mod scan;
pub mod sets;
mod xml;

use entities::entity::plain_in;
use records::class::is_escaped;
use runs::run_from;
use scan::{between, scan_part};
use sets::SET;
use stream::Stream;
use stream::text::{Text, parts_of, text_len, text_part, text_rest, text_skip};

// Whether a text is a lexeme of the class whose record is at p, by its number c; a class that is not plain has none here. It is read where it lies,
// block by block, up to the part that settles it.
fn admits_parts(g: &Stream<'_>, p: u16, set: &[u16], table: &[u16], s: &[u8], t: Text) -> bool
    requires { ClassSet g.now p set.now }
    ensures { (c : ℕ) → class g.now c ≡ some p → result ≡ is_plain_lexeme g.now c (text_in s.now t) }
{
    let head = g.fetch(p as usize);
    if head.kind != 1 {
        return false;
    }
    let most = head.c as usize;
    let mut state = between(0);
    for part in parts_of(s, t) {
        let Some(next) = scan_part(g, p, head.d, set, table, part, state) else {
            return false;
        };
        if most < next.count {
            return false;
        }
        state = next;
    }
    state.due == 0 && head.b as usize <= state.count
}

// The same. Most texts lie in one block and have no character of more than two bytes: one run settles them, and no state is carried.
fn admits_text(g: &Stream<'_>, p: u16, set: &[u16], table: &[u16], s: &[u8], t: Text) -> bool
    requires { ClassSet g.now p set.now }
    ensures { (c : ℕ) → class g.now c ≡ some p → result ≡ is_plain_lexeme g.now c (text_in s.now t) }
{
    let part = text_part(s, t);
    let rest = text_rest(s, t);
    if rest.left == 0 {
        let run = run_from(part, 0, set);
        if part.len() <= run.at {
            let head = g.fetch(p as usize);
            return head.kind == 1 && head.b as usize <= run.count && run.count <= head.c as usize;
        }
    }
    admits_parts(g, p, set, table, s, t)
}

// Whether a text is the escaped form of a lexeme of the class whose record is at p, by its number c. The plain bytes go to the scan one by one:
// escaped forms are tried where a designer wrote one, and these are few.
fn admits_escaped(g: &Stream<'_>, p: u16, set: &[u16], table: &[u16], s: &[u8], t: Text) -> bool
    requires { ClassSet g.now p set.now }
    ensures { (c : ℕ) → class g.now c ≡ some p → result ≡ on_found (unescaped (text_in s.now t)) false (is_plain_lexeme g.now c) }
{
    let head = g.fetch(p as usize);
    if head.kind != 1 {
        return false;
    }
    let most = head.c as usize;
    let mut state = between(0);
    let mut rest = Text {
        at: t.at,
        left: text_len(s, t),
    };
    while 0 < rest.left {
        let Some(plain) = plain_in(s, rest) else {
            return false;
        };
        rest = text_skip(rest, plain.length);
        let Some(next) = scan_part(g, p, head.d, set, table, &[plain.byte], state) else {
            return false;
        };
        if most < next.count {
            return false;
        }
        state = next;
    }
    state.due == 0 && head.b as usize <= state.count
}

// What a class takes its lexemes from: a plain class, itself or the one that an escaped class names, whose lexemes are then escaped.
#[derive(Clone, Copy)]
pub enum Source {
    Plain(u16),
    Escaped(u16),
}

impl Source {
    // The number of the plain class.
    pub fn plain(self) -> u16
        ensures { result ≡ plain_in self }
    {
        match self {
            Source::Plain(c) | Source::Escaped(c) => c,
        }
    }
}

pub fn source_of(g: &Stream<'_>, classes: &[u16], c: u16) -> Source
    requires { ClassesLent g.now classes.now }
    ensures { SourceOf g.now c result }
{
    if let Some(p) = classes.get(c as usize) {
        let head = g.fetch(*p as usize);
        if is_escaped(head) {
            return Source::Escaped(head.b);
        }
    }
    Source::Plain(c)
}

// Whether a text is a lexeme of the plain class of a source, or, if that is escaped, the escaped form of one. There are no lexemes of a class that
// doesn't exist.
pub fn admits(
    g: &Stream<'_>,
    classes: &[u16],
    sets: &[u16],
    source: Source,
    s: &[u8],
    t: Text,
) -> bool
    requires { LexemesReady g.now classes.now sets.now }
    ensures { result ≡ admitted g.now source (text_in s.now t) }
{
    let n = source.plain() as usize;
    let Some(p) = classes.get(n) else {
        return false;
    };
    let from = SET * n;
    let set = &sets[from..from + SET];
    match source {
        Source::Plain(_) => admits_text(g, *p, set, sets, s, t),
        Source::Escaped(_) => admits_escaped(g, *p, set, sets, s, t),
    }
}

// Whether the text of the head at record i of s, of as many bytes as its field b says, is a lexeme of class c.
pub fn is_lexeme(
    g: &Stream<'_>,
    classes: &[u16],
    sets: &[u16],
    c: u16,
    s: &Stream<'_>,
    i: usize,
) -> bool
    requires { LexemesReady g.now classes.now sets.now }
    ensures { result ≡ is_lexeme g.now c (text_of s.now (field_b s.now i) i) }
{
    let head = s.fetch(i);
    let text = s.text_after(i, head.b as usize);
    admits(g, classes, sets, source_of(g, classes, c), s.bytes(), text)
}
