// Refusal 5 of a grammar: the plain classes that its escaped classes name, the classes and nonterminals that its elements name.
ghost use Rattle.std.specs.Prelude.{◌≡◌};
ghost use Rattle.rules.specs.Grammar.{element_at};
ghost use Rattle.rules.specs.Names.{class_named, element_named, grammar_names};
ghost use Rattle.stream.specs.Fault.{fault_of};
ghost use Rattle.limits.specs.Tables.{ClassTable, GrammarTables, Nameable};
ghost use Rattle.limits.specs.Rows.{NamingElement, classes_named, elements_named};

use crate::nonterminals::{WORDS, is_marked};
use crate::plain::is_plain_class;
use records::class::is_escaped;
use records::element::size_of;
use stream::Stream;
use stream::record::Record;

// Whether what the element at e names exists: a class, or a nonterminal. A keyword names nothing, and neither does an element whose form there
// isn't.
#[tactic(auto, using(crate::proofs::NameLaws::class_there), unfolding(rules::specs::Names::element_named, rules::specs::Grammar::element_at, rules::specs::Grammar::element_numbered))]
fn is_named(
    g: &Stream<'_>,
    e: usize,
    element: Record,
    classes: usize,
    nonterminals: &[u64; WORDS],
) -> bool
    requires { NamingElement g.now e element classes nonterminals.now }
    ensures { result ≡ element_named g.now (element_at g.now e) }
{
    match element.a {
        1 => (element.b as usize) < classes,
        2..=4 => is_marked(nonterminals, element.b),
        _ => true,
    }
}

// The elements of the production at p.
fn elements_named(
    g: &Stream<'_>,
    p: u16,
    classes: usize,
    nonterminals: &[u64; WORDS],
) -> Result<(), usize>
    requires { Nameable g.now classes nonterminals.now }
    ensures { fault_of result ≡ elements_named g.now p }
{
    let head = g.fetch(p as usize);
    let mut e = p as usize + 1;
    for _ in 0..head.d {
        let element = g.fetch(e);
        if !is_named(g, e, element, classes, nonterminals) {
            return Err(e);
        }
        e += size_of(element);
    }
    Ok(())
}

// Whether class n, whose head is at p, names an earlier plain class, if it is an escaped one.
#[tactic(auto, unfolding(rules::specs::Names::class_named))]
fn class_named(g: &Stream<'_>, classes: &[u16], n: usize, p: u16) -> bool
    requires { ClassTable g.now classes.now }
    ensures { result ≡ class_named g.now (n, p) }
{
    let head = g.fetch(p as usize);
    !is_escaped(head) || ((head.b as usize) < n && is_plain_class(g, classes, head.b))
}

// The place of the first escaped class that names no earlier plain class.
fn classes_named(g: &Stream<'_>, classes: &[u16]) -> Result<(), usize>
    requires { ClassTable g.now classes.now }
    ensures { fault_of result ≡ classes_named g.now classes.now }
{
    for (n, &p) in classes.iter().enumerate() {
        if !class_named(g, classes, n, p) {
            return Err(p as usize);
        }
    }
    Ok(())
}

// The place of the first escaped class that names no earlier plain class, or element that names a class or a nonterminal that isn't there.
pub fn grammar_names(
    g: &Stream<'_>,
    classes: &[u16],
    productions: &[u16],
    nonterminals: &[u64; WORDS],
) -> Result<(), usize>
    requires { GrammarTables g.now classes.now productions.now nonterminals.now }
    ensures { fault_of result ≡ grammar_names g.now }
{
    classes_named(g, classes)?;
    for &p in productions {
        elements_named(g, p, classes.len(), nonterminals)?;
    }
    Ok(())
}
