// A template node, from its head, with the row of nodes directly below it.
ghost use Rattle.std.specs.Prelude.{◌<◌, ◌^◌};
ghost use Rattle.limits.specs.Rows.{HeadIs, NodesBelow, NodeIs};

use records::node::form_of;
use rules::Form;
use stream::Stream;
use stream::record::Record;

// Nodes in a row: where they begin, and how many.
#[derive(Clone, Copy)]
pub(crate) struct Nodes {
    pub first: usize,
    pub count: usize,
}

// A node: its form, the number that it names, its records, and the nodes directly below it.
#[derive(Clone, Copy)]
pub(crate) struct Node {
    pub form: Form,
    pub names: usize,
    pub size: usize,
    pub below: Nodes,
}

// The d nodes of a build or a sequence follow the head; behind a path come the two of an if, the one of a for and the d arms of a match. Other
// forms have none.
fn nodes_below(t: &Stream<'_>, p: usize, head: Record, form: Form) -> Nodes
    requires { HeadIs t.now p head form }
    ensures { NodesBelow t.now p result }
{
    let (skipped, count) = match form {
        Form::Build | Form::Sequence => (1, head.d as usize),
        Form::If => (2, 2),
        Form::For => (2, 1),
        Form::Match => (2, head.d as usize),
        Form::Literal | Form::Place | Form::Expand | Form::Unknown => (1, 0),
    };
    Nodes {
        first: p + skipped,
        count,
    }
}

// The node at p.
pub(crate) fn node_at(t: &Stream<'_>, p: usize) -> Node
    requires { p < 2 ^ 60 }
    ensures { NodeIs t.now p result }
{
    let head = t.fetch(p);
    let form = form_of(head);
    let below = nodes_below(t, p, head, form);
    Node {
        form,
        names: head.b as usize,
        size: head.c as usize,
        below,
    }
}
