// Refusal 4 of a template set: parameters, depth and loops.
ghost use Rattle.std.specs.Prelude.{◌≡◌, ◌<◌};
ghost use Rattle.rules.specs.Limits.{loops_below, template_limits, templates_limits};
ghost use Rattle.stream.specs.Fault.{fault_of};
ghost use Rattle.limits.specs.Rows.{RowNear, nodes_within};
ghost use Rattle.limits.specs.Tables.{TemplateTable};

use crate::DEEPEST;
use crate::node::node_at;
use rules::Form;
use stream::Stream;

// So many parameters a template may have.
const PARAMETERS: u8 = 8;

// So many loops may stand around a node.
const LOOPS: usize = 16;

// The loops around the nodes below a node: an arm counts as one.
#[tactic(auto, unfolding(rules::specs::Limits::loops_below))]
fn loops_inside(form: Form, loops: usize) -> usize
    requires { loops < 17 }
    ensures { result ≡ loops_below form loops }
{
    match form {
        Form::For | Form::Match => loops + 1,
        Form::Build
        | Form::Literal
        | Form::Place
        | Form::Expand
        | Form::If
        | Form::Sequence
        | Form::Unknown => loops,
    }
}

// A row of nodes and all below them, where left levels may follow each other and so many loops stand around the row. (The loop of `nodes_named` with
// another test and a number more: a test that is handed in would go down 200 levels, and be no plainer.)
fn nodes_within(
    t: &Stream<'_>,
    first: usize,
    count: usize,
    left: usize,
    loops: usize,
) -> Result<(), usize>
    requires { RowNear left first count }
    ensures { fault_of result ≡ nodes_within t.now left loops count first }
{
    if count == 0 {
        return Ok(());
    }
    if left == 0 || LOOPS < loops {
        return Err(first);
    }
    let mut at = first;
    for _ in 0..count {
        let node = node_at(t, at);
        let below = node.below;
        at += node.size;
        // Most nodes have none below them, and cost no call.
        if below.count != 0 {
            let inside = loops_inside(node.form, loops);
            nodes_within(t, below.first, below.count, left - 1, inside)?;
        }
    }
    Ok(())
}

// The limits of the template at p: its parameters, the depth of its body, the loops in it.
fn template_limits(t: &Stream<'_>, p: u16) -> Result<(), usize>
    ensures { fault_of result ≡ template_limits t.now p }
{
    let head = t.fetch(p as usize);
    if PARAMETERS < head.a {
        return Err(p as usize);
    }
    nodes_within(t, p as usize + 1 + head.a as usize, 1, DEEPEST, 0)
}

// The place of the first template with over 8 parameters, or node that is over 200 deep or has over 16 loops around it.
pub fn templates_limits(t: &Stream<'_>, templates: &[u16]) -> Result<(), usize>
    requires { TemplateTable t.now templates.now }
    ensures { fault_of result ≡ templates_limits t.now }
{
    for &p in templates {
        template_limits(t, p)?;
    }
    Ok(())
}
