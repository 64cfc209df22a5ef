// The evaluator and the writer: the walk of crate rules, over the tables of heads and of a value's children. It goes by no typing: where the
// definition is stuck the answer is 99, and no accepted set brings it there.
#![tactic(auto)]

ghost use Rattle.std.specs.Prelude.{◌≡◌, length, replicate};
ghost use Rattle.walk.specs.Asks.{sources, Walkable};
ghost use Rattle.walk.specs.Nodes.{start_at};
ghost use Rattle.walk.specs.Run.{Walked};

mod at;
mod paths;
mod separator;
mod sources;
pub mod state;
mod tables;
mod variables;
mod visits;
mod writer;

use at::At;
use sources::Sources;
use state::{Run, come_out};
use stream::Stream;
use tables::head_at;
pub use tables::mark;
use variables::Frame;
use visits::{body_of, visit};

// The machine nests so many levels deep.
const LEVELS: usize = 200;

// Sets every number of s to 0.
fn clear(s: &mut [u16])
    ensures { s.new ≡ replicate (length s.old) 0 }
{
    s.fill(0);
}

// A node to start with: all levels are left, and nothing is counted.
fn start(node: usize, fuel: u32) -> At
    ensures { result ≡ start_at node fuel }
{
    At {
        node,
        element: 0,
        frame: Frame { base: 0, vars: 1 },
        left: LEVELS,
        fuel,
        steps: 0,
        bytes: 0,
    }
}

// The walk from template 0's body on, with the value as its one variable. What it leaves in the scratch is cleared. (Its streams and tables come one
// by one: they are no Sources before it, since its parameters stay what they were.)
pub fn run(
    g: &Stream<'_>,
    t: &Stream<'_>,
    v: &Stream<'_>,
    productions: &[u16],
    templates: &[u16],
    firsts: &[u16],
    places: &[u16],
    fuel: u32,
    out: &mut [u8],
    scratch: &mut [u16],
) -> Run
    requires { Walkable (sources g.now t.now v.now productions.now templates.now firsts.now places.now) scratch.old }
    ensures { Walked g.now t.now v.now fuel result out.old out.new scratch.old scratch.new }
{
    let Some(template) = head_at(templates, 0) else {
        clear(scratch);
        return come_out(Err(start(0, fuel).stuck()));
    };
    let body = body_of(t, template);
    Frame { base: 0, vars: 0 }.bind(scratch, 0);
    let s = Sources {
        grammar: g,
        templates: t,
        value: v,
        production_heads: productions,
        template_heads: templates,
        firsts,
        places,
    };
    let end = visit(start(body, fuel), &s, out, scratch);
    clear(scratch);
    come_out(end)
}
