// Refusal 5 of a template set: the classes, nonterminals, productions, types and templates that its records name.
ghost use Rattle.std.specs.Prelude.{ℕ, ◌≡◌, List, length};
ghost use Rattle.rules.specs.Names.{type_named, type_names, form_named, template_names, templates_names};
ghost use Rattle.rules.specs.Templates.{type_at};
ghost use Rattle.stream.specs.Fault.{fault_of};
ghost use Rattle.limits.specs.Tables.{TypeCounts, NodeCounts, Naming, AllTables};
ghost use Rattle.limits.specs.Rows.{RowNear, types_below, types_named, nodes_named, templates_named};

use crate::DEEPEST;
use crate::node::{Node, node_at};
use crate::nonterminals::{WORDS, is_marked};
use crate::plain::is_plain_class;
use rules::Form;
use stream::Stream;

// How many there are of what a template names by number.
#[derive(Clone, Copy)]
struct NameCounts {
    productions: usize,
    types: usize,
    templates: usize,
}

// A text type names a plain class, a list type any type.
fn type_named(g: &Stream<'_>, t: &Stream<'_>, classes: &[u16], types: usize, p: u16) -> bool
    requires { TypeCounts g.now t.now classes.now types }
    ensures { result ≡ type_named g.now t.now (type_at t.now p) }
{
    let head = t.fetch(p as usize);
    match head.a {
        0 => is_plain_class(g, classes, head.b),
        2 => (head.b as usize) < types,
        _ => true,
    }
}

// So many fields or parameters behind the head at p: each names a type below a bound.
fn types_below(t: &Stream<'_>, p: u16, count: u16, bound: usize) -> Result<(), usize>
    ensures { fault_of result ≡ types_below t.now bound count p }
{
    let first = p as usize + 1;
    for at in first..first + count as usize {
        let naming = t.fetch(at);
        if bound <= naming.b as usize {
            return Err(at);
        }
    }
    Ok(())
}

// What type n names, its head first; each of its fields an earlier type.
fn type_names(
    g: &Stream<'_>,
    t: &Stream<'_>,
    classes: &[u16],
    types: usize,
    n: usize,
    p: u16,
) -> Result<(), usize>
    requires { TypeCounts g.now t.now classes.now types }
    ensures { fault_of result ≡ type_names g.now t.now (n, p) }
{
    if !type_named(g, t, classes, types, p) {
        return Err(p as usize);
    }
    let head = t.fetch(p as usize);
    types_below(t, p, head.d, n)
}

// What all types name.
fn types_named(g: &Stream<'_>, t: &Stream<'_>, classes: &[u16], types: &[u16]) -> Result<(), usize>
    requires { TypeCounts g.now t.now classes.now (length types.now) }
    ensures { fault_of result ≡ types_named g.now t.now types.now }
{
    for (n, &p) in types.iter().enumerate() {
        type_names(g, t, classes, types.len(), n, p)?;
    }
    Ok(())
}

// A build names a production, an expand a template.
#[tactic(auto, unfolding(rules::specs::Names::form_named))]
fn is_named(node: Node, productions: usize, templates: usize) -> bool
    ensures { (g t : List ℕ) → NodeCounts g t productions templates → result ≡ form_named g t node.form node.names }
{
    match node.form {
        Form::Build => node.names < productions,
        Form::Expand => node.names < templates,
        Form::Literal
        | Form::Place
        | Form::If
        | Form::For
        | Form::Sequence
        | Form::Match
        | Form::Unknown => true,
    }
}

// What a row of nodes and all below them name, where left levels may follow each other. (200 levels of calls are deep: each is passed only
// what it reads, and of the grammar that is the number of productions.)
fn nodes_named(
    t: &Stream<'_>,
    productions: usize,
    templates: usize,
    first: usize,
    count: usize,
    left: usize,
) -> Result<(), usize>
    requires { RowNear left first count }
    ensures { (g : List ℕ) → NodeCounts g t.now productions templates → fault_of result ≡ nodes_named g t.now left count first }
{
    if count == 0 {
        return Ok(());
    }
    if left == 0 {
        return Err(first);
    }
    let mut at = first;
    for _ in 0..count {
        let node = node_at(t, at);
        if !is_named(node, productions, templates) {
            return Err(at);
        }
        let row = node.below;
        at += node.size;
        // Most nodes have none below them, and cost no call.
        if row.count != 0 {
            nodes_named(t, productions, templates, row.first, row.count, left - 1)?;
        }
    }
    Ok(())
}

// What the template at p names: its nonterminal, the types of its parameters, what its body names.
fn template_names(
    g: &Stream<'_>,
    t: &Stream<'_>,
    counts: NameCounts,
    nonterminals: &[u64; WORDS],
    p: u16,
) -> Result<(), usize>
    requires { Naming g.now t.now counts nonterminals.now }
    ensures { fault_of result ≡ template_names g.now t.now p }
{
    let head = t.fetch(p as usize);
    if !is_marked(nonterminals, head.b) {
        return Err(p as usize);
    }
    types_below(t, p, head.a as u16, counts.types)?;
    let body = p as usize + 1 + head.a as usize;
    nodes_named(t, counts.productions, counts.templates, body, 1, DEEPEST)
}

// What all templates name.
fn templates_named(
    g: &Stream<'_>,
    t: &Stream<'_>,
    templates: &[u16],
    counts: NameCounts,
    nonterminals: &[u64; WORDS],
) -> Result<(), usize>
    requires { Naming g.now t.now counts nonterminals.now }
    ensures { fault_of result ≡ templates_named g.now t.now templates.now }
{
    for &p in templates {
        template_names(g, t, counts, nonterminals, p)?;
    }
    Ok(())
}

// The place of the first head that names what isn't there, or field that names no earlier type: types first.
pub fn templates_names(
    g: &Stream<'_>,
    t: &Stream<'_>,
    classes: &[u16],
    productions: &[u16],
    types: &[u16],
    templates: &[u16],
    nonterminals: &[u64; WORDS],
) -> Result<(), usize>
    requires { AllTables g.now t.now classes.now productions.now types.now templates.now nonterminals.now }
    ensures { fault_of result ≡ templates_names g.now t.now }
{
    let counts = NameCounts {
        productions: productions.len(),
        types: types.len(),
        templates: templates.len(),
    };
    types_named(g, t, classes, types)?;
    templates_named(g, t, templates, counts, nonterminals)
}
