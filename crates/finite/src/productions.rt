// Productions, by the nonterminals that are found so far to derive a text.
ghost use Rattle.std.specs.Prelude.{◌≡◌, ◌≤◌, eqb};
ghost use Rattle.rules.specs.Grammar.{element_at};
ghost use Rattle.rules.specs.Finite.{derivable};
ghost use Rattle.limits.specs.Bits.{is_marked};
ghost use Rattle.finite.specs.Found.{ElementAsks, Noted, row_derivable, TryAsks, Tried};

use crate::lexemes::is_noted;
use limits::nonterminals::{WORDS, is_marked, mark};
use records::element::size_of;
use stream::Stream;
use stream::record::Record;

// Whether the element at e derives a text. A repetition may be empty.
#[tactic(auto, unfolding(rules::specs::Finite::derivable, rules::specs::Grammar::element_at, rules::specs::Grammar::element_numbered))]
fn is_derivable(
    g: &Stream<'_>,
    e: usize,
    element: Record,
    lexemes: &[bool],
    found: &[u64; WORDS],
) -> bool
    requires { ElementAsks g.now lexemes.now e element }
    ensures { result ≡ derivable g.now (is_marked found.now) (element_at g.now e) }
{
    match element.a {
        0 => true,
        1 => is_noted(lexemes, element.b),
        2 => is_marked(found, element.b),
        3..=4 => true,
        _ => false,
    }
}

// What is left of a row of elements, from the first on that isn't known to derive a text: where that is, and how many.
#[derive(Clone, Copy)]
pub(crate) struct Rest {
    pub at: usize,
    pub left: u16,
}

// Of so many elements from the one at first on. (Where the rest begins is for the lists: nothing is promised of it.)
pub(crate) fn waiting(
    g: &Stream<'_>,
    lexemes: &[bool],
    first: usize,
    count: u16,
    found: &[u64; WORDS],
) -> Rest
    requires { (Noted g.now lexemes.now) × (first ≤ 65536) }
    ensures { eqb result.left 0 ≡ row_derivable g.now found.now count first }
{
    let mut at = first;
    for turn in 0..count {
        let element = g.fetch(at);
        if !is_derivable(g, at, element, lexemes, found) {
            return Rest {
                at,
                left: count - turn,
            };
        }
        at += size_of(element);
    }
    Rest { at, left: 0 }
}

// The nonterminal of the production at p is found, if no element of it waits. Whether it wasn't before.
pub(crate) fn try_production(
    g: &Stream<'_>,
    lexemes: &[bool],
    p: u16,
    found: &mut [u64; WORDS],
) -> bool
    requires { TryAsks g.now lexemes.now p found.old }
    ensures { Tried g.now p found.old found.new result }
{
    let head = g.fetch(p as usize);
    if is_marked(found, head.b) {
        return false;
    }
    let rest = waiting(g, lexemes, p as usize + 1, head.d, found);
    if 0 < rest.left {
        return false;
    }
    mark(found, head.b);
    true
}
