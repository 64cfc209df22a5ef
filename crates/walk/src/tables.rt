// What the tables tell: the heads of productions and templates by their numbers, which classes are escaped, and the children of a value.
ghost use Rattle.std.specs.Prelude.{◌≡◌, List, ℕ, ◌+◌, ◌-◌, ◌≤◌, ◌<◌, length, get_or};
ghost use Rattle.rules.specs.Records.{nth};
ghost use Rattle.rules.specs.Grammar.{production};
ghost use Rattle.walk.specs.Lookups.{lookup_of};
ghost use Rattle.walk.specs.Marks.{ProductionHeads, escapes_at, mark_of, Marked};

use records::class::is_escaped;
use stream::Stream;

// The head with this number.
pub fn head_at(heads: &[u16], number: u16) -> Option<u16>
    ensures { lookup_of result ≡ nth heads.now number }
{
    heads.get(usize::from(number)).copied()
}

// How many marks the table of productions has: its last entry.
fn marks_in(heads: &[u16]) -> usize
    requires { 1 ≤ length heads.now }
    ensures { (result ≡ get_or heads.now (length heads.now - 1) 0) × (result < 65536) }
{
    usize::from(heads[heads.len() - 1])
}

// The production with this number. Its table has the marks of the classes first, and last how many these are.
pub fn production_at(heads: &[u16], number: u16) -> Option<u16>
    requires { 1 ≤ length heads.now }
    ensures { (g : List ℕ) → ProductionHeads g heads.now → lookup_of result ≡ production g number }
{
    let before_last = &heads[..heads.len() - 1];
    before_last
        .get(marks_in(heads) + usize::from(number))
        .copied()
}

// Whether the position of an element of the grammar asks for a lexeme of an escaped class. Element 0 stands for a nonterminal. Most grammars have
// no escaped class, and then no marks: there no element is looked at.
pub fn is_escaped_at(g: &Stream<'_>, heads: &[u16], element: usize) -> bool
    requires { (ProductionHeads g.now heads.now) × (1 ≤ length heads.now) }
    ensures { result ≡ escapes_at g.now element }
{
    let marks = marks_in(heads);
    if marks == 0 || element == 0 {
        return false;
    }
    let e = g.fetch(element);
    let class = usize::from(e.b);
    if e.a != 1 || marks <= class {
        return false;
    }
    heads[class] == 1
}

// The mark of the class whose head is at p: 1 for an escaped one.
fn mark_of(g: &Stream<'_>, p: u16) -> u16
    ensures { result ≡ mark_of g.now p }
{
    u16::from(is_escaped(g.fetch(usize::from(p))))
}

// Puts marks in the place of the heads of classes. The answer is how many marks there are: none, where no class is escaped.
pub fn mark(g: &Stream<'_>, classes: &mut [u16]) -> usize
    ensures { Marked g.now classes.old classes.new result }
{
    for class in classes.iter_mut() {
        *class = mark_of(g, *class);
    }
    if classes.contains(&1) {
        classes.len()
    } else {
        0
    }
}

// Child j of the value at w.
pub fn child_at(firsts: &[u16], places: &[u16], w: u16, j: u16) -> u16
    requires { (w < length firsts.now) × (get_or firsts.now w 0 + j < length places.now) }
    ensures { result ≡ get_or places.now (get_or firsts.now w 0 + j) 0 }
{
    let first = usize::from(firsts[usize::from(w)]);
    places[first + usize::from(j)]
}
