// The check of a node and of all that stands below it, at most 200 levels deep: a node and a row of nodes, by turns.
ghost use Rattle.std.specs.Prelude.{◌≡◌, ◌+◌, ◌<◌, length, take};
ghost use Rattle.rules.specs.Faults.{every};
ghost use Rattle.rules.specs.Typing.{misfit};
ghost use Rattle.stream.specs.Record.{Fetched};
ghost use Rattle.typing.specs.Answers.{site_of, entry_of, brings_of, brought, bindings, Bound, FrameIn, sites_in, Checked};
ghost use Rattle.typing.specs.Asks.{FrameReady, RowReady, Scope};

use crate::asked::position_at;
use crate::checker::Checker;
use crate::{Below, Brings, Frame, Misfit, Positions, VARIABLES};
use records::node::size_in;
use stream::Stream;
use stream::record::Record;

// Binds what node i of a row brings: its type comes behind those of `count` variables. The answer is how many there are then.
fn bind(
    t: &Stream<'_>,
    scope: &mut [u16; VARIABLES],
    count: usize,
    brings: Brings,
    i: usize,
) -> usize
    requires { (i < 65536) × (Scope scope.old (count + brought brings)) }
    ensures { Bound scope.old count (bindings t.now brings i) scope.new result }
{
    match brings {
        Brings::Nothing => count,
        Brings::Item(ty) => {
            scope[count] = ty;
            count + 1
        }
        Brings::Contents(h) => {
            scope[count] = t.fetch(usize::from(h) + 1 + i).b;
            count + 1
        }
    }
}

impl Checker<'_, '_> {
    // The frame of node i of a row, which is at a place and has `count` variables in scope beside what it brings. One match answers for its position
    // and its variable: a build's row, which brings nothing, then costs no more than its positions.
    fn frame_in(
        &self,
        scope: &mut [u16; VARIABLES],
        count: usize,
        positions: Positions,
        at: usize,
        i: usize,
    ) -> Frame
        requires { (i < 65536) × (entry_of positions i < 8064) × (Scope scope.old (count + brought (brings_of positions))) }
        ensures { FrameIn self.now.g.now self.now.t.now self.now.asked.now scope.old count positions at i scope.new result }
    {
        match positions {
            Positions::Alike(position, brings) => Frame {
                node: at,
                position,
                count: bind(self.t, scope, count, brings, i),
            },
            Positions::Asked(q) => Frame {
                node: at,
                position: position_at(self.g, self.asked[usize::from(q) + 1 + i]),
                count,
            },
        }
    }

    // Offends at the first node that does not suit its position, of a row of nodes with so many variables in scope beside what they bring, and of all
    // that stands below them.
    #[cycle(nodes)]
    fn row(
        &self,
        scope: &mut [u16; VARIABLES],
        below: Below,
        count: usize,
        left: usize,
    ) -> Result<(), Misfit>
        requires { (RowReady left self.now.t.now below count) × (length scope.old ≡ 24) }
        ensures { Checked (every (misfit self.now.g.now self.now.t.now left) (sites_in self.now.g.now self.now.t.now self.now.asked.now (take count scope.old) below)) count scope.old scope.new result }
    {
        let mut at = below.first;
        for i in 0..below.count {
            let f = self.frame_in(scope, count, below.positions, at, i);
            let head = self.t.fetch(f.node);
            self.check(scope, f, head, left)?;
            at += size_in(head);
        }
        Ok(())
    }

    // Offends at the first node from the frame's on that does not suit its position, where `left` levels are left. A build, an if, a for, a sequence
    // and a match differ only in the row that stands below them. The node's head comes from the caller: a row needs it too, for the node's size.
    #[cycle(nodes)]
    pub fn check(
        &self,
        scope: &mut [u16; VARIABLES],
        f: Frame,
        head: Record,
        left: usize,
    ) -> Result<(), Misfit>
        requires { (FrameReady left self.now.t.now f) × (length scope.old ≡ 24) × (Fetched self.now.t.now f.node head) }
        ensures { Checked (misfit self.now.g.now self.now.t.now left (site_of scope.old f)) f.count scope.old scope.new result }
    {
        let misfit = Misfit {
            node: f.node,
            position: f.position,
        };
        if left == 0 {
            return Err(misfit);
        }
        let Some(below) = self.own_test(&scope[..f.count], f, head) else {
            return Err(misfit);
        };
        self.row(scope, below, f.count, left - 1)
    }
}
