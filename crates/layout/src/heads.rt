// The table of heads of a grammar, classes and then productions, and of a template set, types and then templates: each by number. They are
// filled once per run, so that no lookup by number scans.
ghost use Rattle.std.specs.Prelude.{◌≡◌, ℕ, ◌+◌, ◌≤◌, List, length};
ghost use Rattle.rules.specs.Records.{record_count, field_c};
ghost use Rattle.rules.specs.Grammar.{production_size, classes, productions};
ghost use Rattle.rules.specs.Templates.{types, templates};
ghost use Rattle.layout.specs.Heads.{LaidGrammar, LaidTemplates, most_classes, Tables, with_records, ThingAt, RowAhead, RowFilled, TwoRows, RoomForRows};

use crate::common::whole;
use crate::sorts::{Classes, Productions, Sort, Templates, Types};
use records::element::size_of;
use stream::Stream;
use stream::record::{Record, forward, place_of};

// A row of things whose heads are in a table: how many there are, and the place after the last one.
#[derive(Clone, Copy, Debug, PartialEq, Eq)]
struct RowEnd {
    pub count: usize,
    pub next: usize,
}

// How many heads of each kind a stream's table holds.
#[derive(Clone, Copy, Debug, PartialEq, Eq)]
pub struct Counts {
    pub first: usize,
    pub second: usize,
}

// A sort of things that are looked up by number: how many records each takes.
trait Spanning: Sort {
    ghost size: { List ℕ → ℕ → ℕ };

    // The record after the thing at record p, whose head is r.
    fn next(s: &Stream<'_>, p: usize, r: Record) -> usize
        requires { ThingAt s.now p r (size s.now p) }
        ensures { result ≡ p + size s.now p };
}

// Each head has d records after it.
impl Spanning for Classes {
    ghost size = { with_records };

    fn next(_g: &Stream<'_>, p: usize, r: Record) -> usize {
        p + 1 + r.d as usize
    }
}

// Each head has d elements after it. The place of an element is carried: where the next one lies hangs on this one's size alone.
impl Spanning for Productions {
    ghost size = { production_size };

    fn next(g: &Stream<'_>, p: usize, r: Record) -> usize {
        let mut q = p + 1;
        let mut at = place_of(q);
        for _ in 0..r.d {
            let size = size_of(g.fetch_at(at));
            q += size;
            at = forward(at, size);
        }
        q
    }
}

// Each head has d records after it.
impl Spanning for Types {
    ghost size = { with_records };

    fn next(_t: &Stream<'_>, p: usize, r: Record) -> usize {
        p + 1 + r.d as usize
    }
}

// A head's c is the size of all.
impl Spanning for Templates {
    ghost size = { field_c };

    fn next(_t: &Stream<'_>, p: usize, r: Record) -> usize {
        p + r.c as usize
    }
}

// The things of a sort from record start on: their heads go into the table.
fn row<S: Spanning>(s: &Stream<'_>, start: usize, table: &mut [u16]) -> RowEnd
    requires { RowAhead s.now (S.is s.now) (S.size s.now) start (length table.old) }
    ensures { RowFilled (S.is s.now) (S.size s.now) start table.old table.new result }
{
    let mut next = start;
    for (count, place) in table.iter_mut().enumerate() {
        let head = s.fetch(next);
        if !S::is_head(head) {
            return RowEnd { count, next };
        }
        *place = next as u16;
        next = S::next(s, next, head);
    }
    RowEnd {
        count: table.len(),
        next,
    }
}

// The heads of the things of a sort, from the first record on, and behind them those of another.
fn two_rows<A: Spanning, B: Spanning>(s: &Stream<'_>, heads: &mut [u16]) -> Counts
    requires { RoomForRows s.now (A.is s.now) (B.is s.now) (A.size s.now) (B.size s.now) (length heads.old) }
    ensures { (most room : ℕ) → (xs ys : List ℕ) → TwoRows s.now (A.is s.now) (B.is s.now) (A.size s.now) (B.size s.now) most room xs ys → room ≤ length heads.old → Tables most room xs ys heads.old heads.new result }
{
    let one = row::<A>(s, 0, heads);
    let first = one.count;
    let two = row::<B>(s, one.next, &mut heads[first..]);
    Counts {
        first,
        second: two.count,
    }
}

// The heads of a grammar's classes, and behind them those of its productions: each has a record at least, so that a small stream takes a small table.
pub fn grammar_heads(g: &Stream<'_>, heads: &mut [u16]) -> Counts
    requires laid_grammar { LaidGrammar g.now }
    requires g_in_bounds { record_count g.now ≤ length heads.old }
    ensures { Tables most_classes (record_count g.now) (classes g.now) (productions g.now) heads.old heads.new result }
{
    whole(g);
    two_rows::<Classes, Productions>(g, heads)
}

// The heads of a template set's types, and behind them those of its templates, likewise.
pub fn templates_heads(t: &Stream<'_>, heads: &mut [u16]) -> Counts
    requires laid_templates { LaidTemplates t.now }
    requires t_in_bounds { record_count t.now ≤ length heads.old }
    ensures { Tables (record_count t.now) (record_count t.now) (types t.now) (templates t.now) heads.old heads.new result }
{
    two_rows::<Types, Templates>(t, heads)
}
