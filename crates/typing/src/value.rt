// Refusal 8: the value against its declared type.
ghost use Rattle.std.specs.Prelude.{◌≡◌, ◌<◌};
ghost use Rattle.rules.specs.Faults.{every, at};
ghost use Rattle.rules.specs.Typing.{has_form, mistyped, value_typing};
ghost use Rattle.rules.specs.Value.{value_size};
ghost use Rattle.stream.specs.Fault.{fault_of};
ghost use Rattle.stream.specs.Record.{Fetched};
ghost use Rattle.typing.specs.Answers.{kind_form, child_count, kind_below, child_type, row_of, typed_in};
ghost use Rattle.typing.specs.Asks.{ValueRow, ValueAsks};

use crate::checker::ValueChecker;
use crate::kinds::type_of;
use crate::templates::declared_type;
use crate::{Kind, LEVELS};
use lexeme::{Source, admits};
use records::value::size_of;
use stream::Stream;
use stream::record::Record;

// How many values stand directly below one of a kind whose record is r.
fn child_count(kind: Kind, r: Record) -> usize
    ensures { (result ≡ child_count kind r.d) × (result < 65536) }
{
    match kind {
        Kind::Items(_) | Kind::Fields(_, _) => usize::from(r.d),
        Kind::Cases(_, _) => 1,
        _ => 0,
    }
}

// The kind by which the values below one of a kind are typed: its own; but the one child of a case, whose number is given, comes as an item of
// the type of that case's content.
fn kind_below(t: &Stream<'_>, kind: Kind, number: u8) -> Kind
    ensures { result ≡ kind_below t.now kind number }
{
    match kind {
        Kind::Cases(h, _) => Kind::Items(t.fetch(usize::from(h) + 1 + usize::from(number)).b),
        _ => kind,
    }
}

// The type of child i of a value of a kind: the item type, or that of field i. The child of a case comes as an item, by kind_below.
fn child_type(t: &Stream<'_>, kind: Kind, i: usize) -> u16
    requires { i < 65536 }
    ensures { result ≡ child_type t.now kind i }
{
    match kind {
        Kind::Items(ty) => ty,
        Kind::Fields(h, _) => t.fetch(usize::from(h) + 1 + i).b,
        _ => 0,
    }
}

impl ValueChecker<'_, '_> {
    // Whether the value at w, whose record is r, is of a kind, whatever stands below it.
    fn has_form(&self, kind: Kind, w: usize, r: Record) -> bool
        requires { Fetched self.now.v.now w r }
        ensures { result ≡ has_form self.now.g.now self.now.v.now (kind_form self.now.t.now kind) w }
    {
        match kind {
            Kind::Text(c) => {
                let text = self.v.text_after(w, usize::from(r.b));
                r.kind == 1
                    && admits(
                        self.g,
                        self.classes,
                        self.sets,
                        Source::Plain(c),
                        self.v.bytes(),
                        text,
                    )
            }
            Kind::YesNo => r.kind == 2,
            Kind::Items(_) => r.kind == 3,
            Kind::Fields(_, n) => r.kind == 4 && r.d == n,
            Kind::Cases(_, n) => r.kind == 5 && u16::from(r.a) < n,
            Kind::Missing => false,
        }
    }

    // Offends at the place of the first value that is not of its type, among n values in a row from a place on and all that stands below them,
    // where `left` levels are left. They are the children of a value of a kind.
    fn values_typed(&self, kind: Kind, first: usize, n: usize, left: usize) -> Result<(), usize>
        requires { ValueRow first n left }
        ensures { fault_of result ≡ at (λ x. x.value) (every (mistyped self.now.g.now self.now.t.now self.now.v.now left) (row_of (typed_in self.now.t.now kind) (value_size self.now.v.now) n 0 first)) }
    {
        let mut next = first;
        for i in 0..n {
            let w = next;
            let r = self.v.fetch(w);
            let own = type_of(self.t, self.types, child_type(self.t, kind, i));
            if left == 0 || !self.has_form(own, w, r) {
                return Err(w);
            }
            let count = child_count(own, r);
            let number = r.a;
            // All that the next turn needs of this value's record is read here, so that no frame keeps a record over its call.
            next += size_of(r);
            // Most values are texts, which have nothing below them and cost no call.
            if count != 0 {
                let below = kind_below(self.t, own, number);
                self.values_typed(below, w + 1, count, left - 1)?;
            }
        }
        Ok(())
    }
}

// Offends at the place of the first value that is not of its type: the whole value is to be of the declared type, as a row of one.
pub fn value_typing<'s>(
    g: &Stream<'s>,
    t: &Stream<'s>,
    v: &Stream<'s>,
    classes: &[u16],
    sets: &[u16],
    types: &[u16],
    templates: &[u16],
) -> Result<(), usize>
    requires { ValueAsks g.now t.now v.now classes.now sets.now types.now templates.now }
    ensures { fault_of result ≡ value_typing g.now t.now v.now }
{
    let Some(ty) = declared_type(t, templates) else {
        return Err(0);
    };
    let checker = ValueChecker {
        g,
        t,
        v,
        classes,
        sets,
        types,
    };
    checker.values_typed(Kind::Items(ty), 0, 1, LEVELS)
}
