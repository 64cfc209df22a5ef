// Refusal 3 of a grammar: classes with their ranges, productions with their elements, then zero records.
ghost use Rattle.std.specs.Prelude.{◌≡◌, ℕ, ◌+◌, ◌<◌, ◌^◌, List};
ghost use Rattle.std.proofs.Math.Option.{Option};
ghost use Rattle.rules.specs.Faults.{need};
ghost use Rattle.rules.specs.Records.{record_count};
ghost use Rattle.rules.specs.Layout.{in_row, while_is, range_end, class_end, element_end, production_end, grammar_end, grammar_layout};
ghost use Rattle.stream.specs.Record.{Fetched};
ghost use Rattle.layout.specs.Grammar.{end_of, class_head, element_head};
ghost use Rattle.layout.specs.Sorts.{HeadInside};

use crate::common::{padded, record_count, tail_right, whole};
use crate::sorts::{Classes, Productions, Sort};
use records::class::is_escaped;
use records::element::{text_length, units};
use records::production::number_of;
use stream::Stream;
use stream::record::Record;

// n ranges from record p on, and the place after them. Byte 7 of a range, the high byte of d, is unused.
fn ranges_end(g: &Stream<'_>, p: usize, n: usize) -> Option<usize>
    requires { p + n < 2 ^ 64 }
    ensures { end_of result ≡ in_row (range_end g.now) n p }
{
    for k in 0..n {
        let range = g.fetch(p + k);
        if range.kind != 2 || 255 < range.d {
            return None;
        }
    }
    Some(p + n)
}

// What an escaped class says of itself: c and d are unused. A plain one uses both.
fn is_laid(class: Record) -> bool
    ensures { result ≡ class_head class }
{
    !is_escaped(class) || class.c == 0 && class.d == 0
}

// What an element's head says of itself: its kind, one of five forms, c unused by the first four, and d unused.
fn is_element(e: Record) -> bool
    ensures { result ≡ element_head e }
{
    e.kind == 4 && e.a <= 4 && (e.a == 4 || e.c == 0) && e.d == 0
}

// The place after the element at record p: one record, and after it its text, of which only the padding is looked at.
fn element_end(g: &Stream<'_>, p: usize) -> Option<usize>
    ensures { end_of result ≡ element_end g.now p }
{
    whole(g);
    let e = g.fetch(p);
    if !is_element(e) {
        return None;
    }
    let text = text_length(e);
    // The unit n records on. (With its clauses, since none are inferred for a closure that holds a stream.)
    let unit = |n: usize| -> Record
        requires { p + n < 2 ^ 64 }
        ensures { Fetched g.entry.now (p + n) result }
    { g.fetch(p + n) };
    if padded(text, unit) {
        Some(p + 1 + units(text as usize))
    } else {
        None
    }
}

// The place after n elements from record p on.
fn elements_end(g: &Stream<'_>, p: usize, n: usize) -> Option<usize>
    ensures { end_of result ≡ in_row (element_end g.now) n p }
{
    let mut q = p;
    for _ in 0..n {
        q = element_end(g, q)?;
    }
    Some(q)
}

// A sort of things that are numbered from 0 in their row: where each ends, if it is laid out.
trait Numbered: Sort {
    ghost end: { List ℕ → ℕ → ℕ → Option ℕ };

    // The place after the thing at record p, whose head is r, where its number is n.
    fn end(g: &Stream<'_>, n: usize, p: usize, r: Record) -> Option<usize>
        requires { HeadInside g.now p r }
        ensures { end_of result ≡ end g.now n p };
}

impl Numbered for Classes {
    ghost end = { class_end };

    fn end(g: &Stream<'_>, n: usize, p: usize, r: Record) -> Option<usize> {
        if r.a as usize != n || !is_laid(r) {
            return None;
        }
        ranges_end(g, p + 1, r.d as usize)
    }
}

impl Numbered for Productions {
    ghost end = { production_end };

    fn end(g: &Stream<'_>, n: usize, p: usize, r: Record) -> Option<usize> {
        if number_of(r) != n {
            return None;
        }
        elements_end(g, p + 1, r.d as usize)
    }
}

// The things of a sort from record start on: where they end. There are no more than records.
fn row_end<S: Numbered>(g: &Stream<'_>, start: usize) -> Option<usize>
    ensures { end_of result ≡ while_is (S.is g.now) (S.end g.now) (record_count g.now) 0 start }
{
    whole(g);
    let mut p = start;
    for n in 0..record_count(g) {
        let head = g.fetch(p);
        if !S::is_head(head) {
            return Some(p);
        }
        p = S::end(g, n, p, head)?;
    }
    Some(p)
}

// Where the classes end, and after them the productions.
fn grammar_end(g: &Stream<'_>) -> Option<usize>
    ensures { end_of result ≡ grammar_end g.now }
{
    let middle = row_end::<Classes>(g, 0)?;
    row_end::<Productions>(g, middle)
}

// The records of a grammar are laid out: refusal 3 where they are not. Each record is fetched once, and a text only skipped.
pub fn grammar_layout(g: &Stream<'_>) -> bool
    ensures { need result 0 ≡ grammar_layout g.now }
{
    let Some(end) = grammar_end(g) else {
        return false;
    };
    tail_right(g, end)
}
