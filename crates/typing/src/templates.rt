// Refusal 7: every template's body against the grammar.
ghost use Rattle.std.specs.Prelude.{◌≡◌, map, ◌+◌, ◌≤◌, ◌<◌, length, take};
ghost use Rattle.rules.specs.Records.{field_a, field_b, row};
ghost use Rattle.rules.specs.Templates.{templates as templateHeads};
ghost use Rattle.rules.specs.Typing.{declared_type, templates_typing};
ghost use Rattle.stream.specs.Fault.{fault_of};
ghost use Rattle.typing.specs.Answers.{found};
ghost use Rattle.typing.specs.Asks.{TemplatesAsk, BodyOf};

use crate::asked::fill;
use crate::checker::Checker;
use crate::kinds::head;
use crate::{Frame, LEVELS, RECORDS, VARIABLES};
use rules::Position;
use stream::Stream;

// The types that n parameters of the template at q name.
fn parameter_types(t: &Stream<'_>, q: u16, n: usize) -> [u16; VARIABLES]
    requires { n ≤ 8 }
    ensures { (take n result ≡ map (field_b t.now) (row n (q + 1))) × (length result ≡ 24) }
{
    let p = usize::from(q) + 1;
    let mut slots = [0u16; VARIABLES];
    for i in 0..n {
        slots[i] = t.fetch(p + i).b;
    }
    slots
}

// The frame of the body of the template at q.
fn body_frame(t: &Stream<'_>, q: u16) -> Frame
    requires { field_a t.now q ≤ 8 }
    ensures { BodyOf t.now q result }
{
    let at = usize::from(q);
    let r = t.fetch(at);
    let count = usize::from(r.a);
    Frame {
        node: at + 1 + count,
        position: Position::Nonterminal(r.b),
        count,
    }
}

// The declared type: that of the one parameter of template 0.
pub fn declared_type(t: &Stream<'_>, templates: &[u16]) -> Option<u16>
    requires { templates.now ≡ templateHeads t.now }
    ensures { found result ≡ declared_type t.now }
{
    let q = usize::from(head(templates, 0)?);
    if t.fetch(q).a != 1 {
        return None;
    }
    Some(t.fetch(q + 1).b)
}

// Offends at the place of the first node, in any template, that does not suit its position; at 0 if there is no declared type.
pub fn templates_typing<'s>(
    g: &Stream<'s>,
    t: &Stream<'s>,
    classes: &[u16],
    sets: &[u16],
    productions: &[u16],
    types: &[u16],
    templates: &[u16],
) -> Result<(), usize>
    requires { TemplatesAsk g.now t.now classes.now sets.now productions.now types.now templates.now }
    ensures { fault_of result ≡ templates_typing g.now t.now }
{
    if declared_type(t, templates).is_none() {
        return Err(0);
    }
    let mut asked = [0u16; RECORDS];
    fill(g, productions, &mut asked);
    let checker = Checker {
        g,
        t,
        classes,
        sets,
        productions,
        asked: &asked,
        types,
        templates,
    };
    for q in templates {
        let f = body_frame(t, *q);
        let mut scope = parameter_types(t, *q, f.count);
        if let Err(misfit) = checker.check(&mut scope, f, t.fetch(f.node), LEVELS) {
            return Err(misfit.node);
        }
    }
    Ok(())
}
