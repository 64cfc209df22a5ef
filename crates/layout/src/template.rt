// The templates' layout: types, then templates, each with its parameters and one body node, then zero records.
ghost use Rattle.std.specs.Prelude.{◌≡◌, ℕ, ◌+◌};
ghost use Rattle.std.proofs.Math.Option.{Option};
ghost use Rattle.rules.specs.Faults.{need, only_if};
ghost use Rattle.rules.specs.Records.{field_d};
ghost use Rattle.rules.specs.Layout.{in_row, path_end, fields_end, type_end, template_end, templates_layout};
ghost use Rattle.stream.specs.Record.{Fetched, place_of};
ghost use Rattle.layout.specs.Grammar.{end_of};
ghost use Rattle.layout.specs.Tree.{Node, path_head, bare_path_head, head_end, below, fills, Headed, CountsOn, UpTo, HeadIn};
ghost use Rattle.layout.specs.Template.{naming, path_record, TellsOne, types_end, rest_right, within};
ghost use Rattle.layout.specs.Sorts.{HeadInside};

use crate::common::{record_count, tail_right, whole, zero_from};
use crate::sorts::{Sort, Templates, Types};
use crate::tree::{Head, chained, text_head};
use records::node::form_of;
use records::value::size_of;
use rules::Form;
use stream::Stream;
use stream::record::{Place, Record, forward, place_of};

// A field or a parameter: it names a type, and nothing else.
fn names_type(r: Record, kind: u8) -> bool
    ensures { result ≡ naming r kind }
{
    r.kind == kind && r.a == 0 && r.c == 0 && r.d == 0
}

// A path: at most 5 steps, and no field numbers past them.
fn is_path(r: Record) -> bool
    ensures { result ≡ path_record r }
{
    let steps = usize::from(r.b % 256);
    r.kind == 6 && steps <= 5 && zero_from(r, 3 + steps)
}

// n records from a place on, each of which passes a test.
fn in_row<F: Fn(Record) -> bool>(t: &Stream<'_>, at: Place, n: u16, is_one: F) -> bool
    requires counts_on { CountsOn t.now at n }
    requires callable { F.IsAlwaysCallable is_one }
    ensures { (one : ℕ → Option ℕ) → TellsOne t.now one (F.post is_one) → (p : ℕ) → at ≡ place_of p → only_if result (p + n) ≡ in_row one n p }
{
    let mut here = at;
    for _ in 0..n {
        if !is_one(t.fetch_at(here)) {
            return false;
        }
        here = forward(here, 1);
    }
    true
}

// A head that a path follows, and then n nodes; b is unused.
fn path_head(t: &Stream<'_>, at: Place, r: Record, n: u32) -> Option<Head>
    requires { CountsOn t.now at 65536 }
    ensures { (p : ℕ) → at ≡ place_of p → Fetched t.now p r → Headed p result (path_head t.now p) n }
{
    if r.b == 0 && is_path(t.fetch_at(forward(at, 1))) {
        Some(Head { own: 2, below: n })
    } else {
        None
    }
}

// The head of a place, an if or a for, whose form says how many nodes come: d is unused, too.
fn bare_path_head(t: &Stream<'_>, at: Place, r: Record, n: u32) -> Option<Head>
    requires { CountsOn t.now at 65536 }
    ensures { (p : ℕ) → at ≡ place_of p → Fetched t.now p r → Headed p result (bare_path_head t.now p) n }
{
    if r.d == 0 {
        path_head(t, at, r, n)
    } else {
        None
    }
}

// The head of an expand, with its d paths.
fn expand_head(t: &Stream<'_>, at: Place, r: Record) -> Option<Head>
    requires { CountsOn t.now at 65536 }
    ensures { (p : ℕ) → at ≡ place_of p → Fetched t.now p r → Headed p result (in_row (path_end t.now) (field_d t.now p) (p + 1)) 0 }
{
    if in_row(t, forward(at, 1), r.d, is_path) {
        Some(Head {
            own: 1 + u32::from(r.d),
            below: 0,
        })
    } else {
        None
    }
}

// A node's head, by its form.
fn node_head(t: &Stream<'_>, at: Place, r: Record, size: usize) -> Option<Head>
    requires { HeadIn t.now at r size }
    ensures { (p : ℕ) → at ≡ place_of p → Fetched t.now p r → Headed p result (head_end Node t.now p) (below Node t.now p) }
{
    if r.kind != 5 {
        return None;
    }
    let below = u32::from(r.d);
    match form_of(r) {
        Form::Build => Some(Head { own: 1, below }),
        Form::Literal if r.d == 0 => text_head(t, at, r, size),
        Form::Place => bare_path_head(t, at, r, 0),
        Form::Expand => expand_head(t, at, r),
        Form::If => bare_path_head(t, at, r, 2),
        Form::For => bare_path_head(t, at, r, 1),
        Form::Sequence if r.b == 0 => Some(Head { own: 1, below }),
        Form::Match => path_head(t, at, r, below),
        Form::Literal | Form::Sequence | Form::Unknown => None,
    }
}

// The records from p to e are exactly one node. Each head is looked at twice: in its turn, and among the nodes below another.
fn one_node(t: &Stream<'_>, p: usize, e: usize) -> bool
    requires { UpTo t.now p e }
    ensures { result ≡ fills Node t.now p e }
{
    let mut q = p;
    let mut at = place_of(p);
    if !chained(t, 1, p, at, e) {
        return false;
    }
    while q < e {
        let r = t.fetch_in(at);
        let size = size_of(r);
        let end = q + size;
        if e < end {
            return false;
        }
        let Some(Head { own, below }) = node_head(t, at, r, size) else {
            return false;
        };
        let next = q + own as usize;
        at = forward(at, own as usize);
        if !chained(t, below as usize, next, at, end) {
            return false;
        }
        q = next;
    }
    q == e
}

// So many cases a variant may have: a case's number is a byte.
const CASES: u16 = 256;

// The d fields of a record or a variant; b is unused, as c is of every type.
fn fields_right(t: &Stream<'_>, at: Place, r: Record) -> bool
    requires counts_on { CountsOn t.now at 65536 }
    requires c_value { r.c ≡ 0 }
    ensures { (p : ℕ) → at ≡ place_of p → Fetched t.now p r → only_if result (p + 1 + field_d t.now p) ≡ fields_end t.now p }
{
    r.b == 0 && in_row(t, forward(at, 1), r.d, |r| names_type(r, 2))
}

// The type at a place: its fields by its form. It has one record and one for each field, of which only a record and a variant have any.
fn type_right(t: &Stream<'_>, at: Place, r: Record) -> bool
    requires { CountsOn t.now at 65536 }
    ensures { (p : ℕ) → at ≡ place_of p → Fetched t.now p r → only_if result (p + 1 + field_d t.now p) ≡ type_end t.now p }
{
    if r.c != 0 {
        return false;
    }
    match r.a {
        0 | 2 => r.d == 0,
        1 => r.b == 0 && r.d == 0,
        3 => fields_right(t, at, r),
        4 if 1 <= r.d && r.d <= CASES => fields_right(t, at, r),
        _ => false,
    }
}

// The types, from the first record on: where they end.
// (Not by a grammar's `row_end`: types have no number, and a place that is carried needs no division.)
fn types_end(t: &Stream<'_>) -> Option<usize>
    ensures { end_of result ≡ types_end t.now }
{
    whole(t);
    let mut p: usize = 0;
    let mut at = place_of(0);
    loop {
        let r = t.fetch_at(at);
        if !Types::is_head(r) {
            return Some(p);
        }
        if !type_right(t, at, r) {
            return None;
        }
        let size = 1 + r.d as usize;
        p += size;
        at = forward(at, size);
    }
}

// The template at record p, whose head is r: it ends by its size, within the stream.
fn template_right(t: &Stream<'_>, p: usize, r: Record) -> bool
    requires { HeadInside t.now p r }
    ensures { result ≡ within t.now (template_end t.now p) }
{
    let e = p + r.c as usize;
    r.d == 0
        && e <= record_count(t)
        && in_row(t, place_of(p + 1), u16::from(r.a), |r| names_type(r, 4))
        && one_node(t, p + 1 + r.a as usize, e)
}

// The templates from record p on, and the zero records after the last.
// (Not by `row_end` either: templates have no number.)
fn templates_from(t: &Stream<'_>, p: usize) -> bool
    ensures { result ≡ rest_right t.now p }
{
    whole(t);
    let mut q = p;
    loop {
        let r = t.fetch(q);
        if !Templates::is_head(r) {
            return tail_right(t, q);
        }
        if !template_right(t, q, r) {
            return false;
        }
        q += r.c as usize;
    }
}

// The records of a template set are laid out: refusal 3 where they are not.
pub fn templates_layout(t: &Stream<'_>) -> bool
    ensures { need result 0 ≡ templates_layout t.now }
{
    let Some(end) = types_end(t) else {
        return false;
    };
    templates_from(t, end)
}
