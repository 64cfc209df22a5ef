// The visit of a node and of what stands below it: a cycle of functions. A call of `visit` below another has one level less, so the calls are
// at most 201 levels deep, whatever the lists hold; items, children and elements are walked by loops. Each is given its node, and lent what a
// walk reads, the output and the scratch.
ghost use Rattle.std.specs.Prelude.{◌≡◌, cond, ◌+◌, ◌*◌, ◌≤◌, ◌<◌, ◌^◌, eqb};
ghost use Rattle.rules.specs.Records.{field_c, after};
ghost use Rattle.rules.specs.Templates.{body, form_of, first, second};
ghost use Rattle.stream.specs.Record.{Fetched};
ghost use Rattle.walk.specs.Asks.{InReach, Visitable, Formed, Listed};
ghost use Rattle.walk.specs.Run.{VisitedFrom, seen, seen_turns, items_seen};
ghost use Rattle.walk.specs.Turns.{Turned};
ghost use Rattle.walk.specs.Visits.{sources_of, visit_end, form_end, turns_end};

use crate::at::At;
use crate::paths::{pass, path_value};
use crate::separator::{Separator, fills, is_due, separate, separator_of};
use crate::sources::Sources;
use crate::state::{Progress, Stop, Turns};
use crate::tables::{child_at, head_at, production_at};
use crate::writer::{place, write};
use records::element::size_of;
use records::node::{form_of, is_for, size_at, size_in};
use rules::Form;
use stream::Stream;
use stream::record::Record;

// The body of the template at a place.
pub fn body_of(t: &Stream<'_>, template: u16) -> usize
    ensures { (result ≡ body t.now template) × (result < 65792) }
{
    let p = usize::from(template);
    p + 1 + usize::from(t.fetch(p).a)
}

// The branch of an if that is taken, by what its yes/no says.
fn branch_of(t: &Stream<'_>, node: usize, a: u8) -> usize
    requires { InReach 1 node }
    ensures { (result ≡ cond (eqb a 1) (first node) (second t.now node)) × (result ≤ node + 65537) }
{
    let yes = node + 2;
    if a == 1 { yes } else { yes + size_at(t, yes) }
}

// The arm of a match for the case of this number.
fn arm_of(t: &Stream<'_>, node: usize, case: u8) -> usize
    requires { InReach 1 node }
    ensures { (result ≡ after (field_c t.now) case (first node)) × (result ≤ node + 2 + 65535 * case) }
{
    let mut arm = node + 2;
    for _ in 0..case {
        arm += size_at(t, arm);
    }
    arm
}

// A sequence visits its items in order, with its separator between them; n of them so far. A for among them brings any number.
#[cycle(visits)]
fn sequence_items(
    at: At,
    head: Record,
    s: &Sources<'_>,
    out: &mut [u8],
    scratch: &mut [u16],
) -> Result<Progress, Stop>
    requires { (Formed Form.Sequence (sources_of s.now) at out.old scratch.old) × (Fetched s.now.templates.now at.node head) }
    ensures { VisitedFrom (form_end Form.Sequence (sources_of s.now) at out.old scratch.old) at (seen result) out.old out.new scratch.old scratch.new }
{
    let e = s.grammar.fetch(at.element);
    if !fills(at.element, e) {
        return Err(at.stuck());
    }
    let sep = separator_of(at, e);
    let mut item = at.node + 1;
    let mut n = 0;
    let mut here = at;
    for _ in 0..head.d {
        let next = s.templates.fetch(item);
        if is_for(next) {
            let turns = for_node(here.below(item, 0), sep, n, s, out, scratch)?;
            here = here.after(turns.so_far);
            n = turns.items;
        } else {
            if is_due(sep, n) {
                let written = separate(s.grammar, sep, out, here)?;
                here = here.after(written);
            }
            let end = visit(here.below(item, 0), s, out, scratch)?;
            here = here.after(end);
            n += 1;
        }
        item += size_in(next);
    }
    Ok(here.progress())
}

// A for in a sequence, which has had so many items before it: the body once for each item of its list. It is tried as any node, but here, since
// it hands back how many items there are then.
#[cycle(visits)]
fn for_node(
    at: At,
    sep: Separator,
    before: usize,
    s: &Sources<'_>,
    out: &mut [u8],
    scratch: &mut [u16],
) -> Result<Turns, Stop>
    requires { (Visitable (sources_of s.now) at out.old scratch.old) × (form_of s.now.templates.now at.node ≡ Form.For) × (before < 2 ^ 32) }
    ensures { Turned s.now.grammar.now s.now.templates.now s.now.value.now sep before at (seen_turns result) (items_seen result) out.old out.new scratch.old scratch.new }
{
    let here = at.entered()?;
    let path = here.node + 1;
    let Some(w) = path_value(s, scratch, here.frame, path) else {
        return Err(here.stuck());
    };
    let list = s.value.fetch(usize::from(w));
    if list.kind != 3 {
        return Err(here.stuck());
    }
    let count = list.d;
    let so_far = for_items(here, w, count, sep, before, s, out, scratch)?;
    Ok(Turns {
        so_far,
        items: before + usize::from(count),
    })
}

// A for visits its body once for each of the `count` items of the list at w, the item being one variable more.
#[cycle(visits)]
fn for_items(
    at: At,
    w: u16,
    count: u16,
    sep: Separator,
    before: usize,
    s: &Sources<'_>,
    out: &mut [u8],
    scratch: &mut [u16],
) -> Result<Progress, Stop>
    requires { (Formed Form.For (sources_of s.now) at out.old scratch.old) × (Listed s.now.templates.now s.now.value.now at scratch.old w count) × (before < 2 ^ 32) }
    ensures { VisitedFrom (turns_end (sources_of s.now) sep before at out.old scratch.old) at (seen result) out.old out.new scratch.old scratch.new }
{
    let body = at.node + 2;
    let mut here = at;
    for done in 0..count {
        if is_due(sep, before + usize::from(done)) {
            let written = separate(s.grammar, sep, out, here)?;
            here = here.after(written);
        }
        let item = child_at(s.firsts, s.places, w, done);
        at.frame.bind(scratch, item);
        let below = here.below(body, 0).bound();
        let end = visit(below, s, out, scratch)?;
        here = here.after(end);
    }
    Ok(here.progress())
}

// A build takes the elements of its production in order: it writes a keyword, and visits the next child for any other.
#[cycle(visits)]
fn build_items(
    at: At,
    head: Record,
    s: &Sources<'_>,
    out: &mut [u8],
    scratch: &mut [u16],
) -> Result<Progress, Stop>
    requires { (Formed Form.Build (sources_of s.now) at out.old scratch.old) × (Fetched s.now.templates.now at.node head) }
    ensures { VisitedFrom (form_end Form.Build (sources_of s.now) at out.old scratch.old) at (seen result) out.old out.new scratch.old scratch.new }
{
    let Some(production) = production_at(s.production_heads, head.b) else {
        return Err(at.stuck());
    };
    let place = usize::from(production);
    let count = s.grammar.fetch(place).d;
    let mut element = place + 1;
    let mut child = at.node + 1;
    let mut used = 0;
    let mut here = at;
    for _ in 0..count {
        let e = s.grammar.fetch(element);
        let end = if e.a == 0 {
            write(s.grammar, element, e.b, out, here)?
        } else {
            if head.d <= used {
                return Err(here.stuck());
            }
            let below = here.below(child, element);
            used += 1;
            child += size_at(s.templates, child);
            visit(below, s, out, scratch)?
        };
        here = here.after(end);
        element += size_of(e);
    }
    Ok(here.progress())
}

// An expand enters the body of its template with a fresh set of variables, those that its paths find, right behind its own. With no level
// left below it they are only looked for: the body is not visited, and reads none.
#[cycle(visits)]
fn expand_body(
    at: At,
    head: Record,
    s: &Sources<'_>,
    out: &mut [u8],
    scratch: &mut [u16],
) -> Result<Progress, Stop>
    requires { (Formed Form.Expand (sources_of s.now) at out.old scratch.old) × (Fetched s.now.templates.now at.node head) }
    ensures { VisitedFrom (form_end Form.Expand (sources_of s.now) at out.old scratch.old) at (seen result) out.old out.new scratch.old scratch.new }
{
    let Some(template) = head_at(s.template_heads, head.b) else {
        return Err(at.stuck());
    };
    let body = body_of(s.templates, template);
    let paths = at.node + 1;
    let count = usize::from(head.d);
    let next = at.frame.behind(count);
    let stored = 1 < at.left;
    if !pass(s, scratch, at.frame, paths, count, stored) {
        return Err(at.stuck());
    }
    let below = at.below(body, 0).framed(next);
    visit(below, s, out, scratch)
}

// An if visits only the branch taken.
#[cycle(visits)]
fn if_branch(at: At, s: &Sources<'_>, out: &mut [u8], scratch: &mut [u16]) -> Result<Progress, Stop>
    requires { Formed Form.If (sources_of s.now) at out.old scratch.old }
    ensures { VisitedFrom (form_end Form.If (sources_of s.now) at out.old scratch.old) at (seen result) out.old out.new scratch.old scratch.new }
{
    let path = at.node + 1;
    let Some(w) = path_value(s, scratch, at.frame, path) else {
        return Err(at.stuck());
    };
    let head = s.value.fetch(usize::from(w));
    if head.kind != 2 {
        return Err(at.stuck());
    }
    let branch = branch_of(s.templates, at.node, head.a);
    let below = at.below(branch, at.element);
    visit(below, s, out, scratch)
}

// A match visits only the arm of its case, with the case's content as one variable more.
#[cycle(visits)]
fn match_arm(
    at: At,
    head: Record,
    s: &Sources<'_>,
    out: &mut [u8],
    scratch: &mut [u16],
) -> Result<Progress, Stop>
    requires { (Formed Form.Match (sources_of s.now) at out.old scratch.old) × (Fetched s.now.templates.now at.node head) }
    ensures { VisitedFrom (form_end Form.Match (sources_of s.now) at out.old scratch.old) at (seen result) out.old out.new scratch.old scratch.new }
{
    let path = at.node + 1;
    let Some(w) = path_value(s, scratch, at.frame, path) else {
        return Err(at.stuck());
    };
    let case = s.value.fetch(usize::from(w));
    if case.kind != 5 {
        return Err(at.stuck());
    }
    if head.d <= case.a as u16 {
        return Err(at.stuck());
    }
    let arm = arm_of(s.templates, at.node, case.a);
    let content = child_at(s.firsts, s.places, w, 0);
    at.frame.bind(scratch, content);
    let below = at.below(arm, at.element).bound();
    visit(below, s, out, scratch)
}

// A visit of a node: it is tried for 10, counts one step, and is tried for 11; then its form decides.
#[cycle(visits)]
pub fn visit(at: At, s: &Sources<'_>, out: &mut [u8], scratch: &mut [u16]) -> Result<Progress, Stop>
    requires { Visitable (sources_of s.now) at out.old scratch.old }
    ensures { VisitedFrom (visit_end (sources_of s.now) at out.old scratch.old) at (seen result) out.old out.new scratch.old scratch.new }
{
    let here = at.entered()?;
    let head = s.templates.fetch(here.node);
    match form_of(head) {
        Form::Build => build_items(here, head, s, out, scratch),
        Form::Literal => write(s.templates, here.node, head.b, out, here),
        Form::Place => place(s, out, scratch, here),
        Form::Expand => expand_body(here, head, s, out, scratch),
        Form::If => if_branch(here, s, out, scratch),
        Form::Sequence => sequence_items(here, head, s, out, scratch),
        Form::Match => match_arm(here, head, s, out, scratch),
        Form::For | Form::Unknown => Err(here.stuck()),
    }
}
