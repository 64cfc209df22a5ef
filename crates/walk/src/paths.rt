// The values that paths find: a variable, then field by field.
ghost use Rattle.std.specs.Prelude.{◌≡◌, true, ◌+◌, ◌≤◌, ◌<◌, ◌^◌, length};
ghost use Rattle.std.proofs.Math.Option.{none};
ghost use Rattle.rules.specs.Faults.{on_found};
ghost use Rattle.rules.specs.Records.{nth};
ghost use Rattle.rules.specs.Value.{as_record};
ghost use Rattle.rules.specs.Walk.{path_value};
ghost use Rattle.records.specs.Children.{Stands};
ghost use Rattle.walk.specs.Asks.{ValueLent, FollowsIn};
ghost use Rattle.walk.specs.Frames.{frame, Passed};
ghost use Rattle.walk.specs.Lookups.{Finds};
ghost use Rattle.walk.specs.Visits.{sources_of};

use crate::sources::Sources;
use crate::tables::child_at;
use crate::variables::Frame;
use records::path::{step_at, steps_of, variable_of};

// Field j of the value at w, if that is a record that has it.
fn field(s: &Sources<'_>, w: u16, j: u16) -> Option<u16>
    requires { (ValueLent s.now.value.now s.now.firsts.now s.now.places.now) × (Stands s.now.value.now w) }
    ensures { Finds s.now.value.now (on_found (as_record s.now.value.now w) none (λ ws. nth ws j)) result }
{
    let head = s.value.fetch(usize::from(w));
    if head.kind == 4 && j < head.d {
        Some(child_at(s.firsts, s.places, w, j))
    } else {
        None
    }
}

// The value that the path at p finds.
pub fn path_value(s: &Sources<'_>, scratch: &[u16], variables: Frame, p: usize) -> Option<u16>
    requires { FollowsIn (sources_of s.now) variables.base variables.vars scratch.now }
    ensures { Finds s.now.value.now (path_value s.now.templates.now s.now.value.now (frame variables.base variables.vars scratch.now) p) result }
{
    let path = s.templates.fetch(p);
    let mut w = variables.variable(scratch, variable_of(path))?;
    for i in 0..steps_of(path) {
        w = field(s, w, step_at(path, i))?;
    }
    Some(w)
}

// Whether n paths in a row from p on all find values. If `stored`, these become a frame right behind this one. (A flag: two functions would
// say twice how paths are looked for.)
pub fn pass(
    s: &Sources<'_>,
    scratch: &mut [u16],
    variables: Frame,
    p: usize,
    n: usize,
    stored: bool,
) -> bool
    requires { (FollowsIn (sources_of s.now) variables.base variables.vars scratch.old) × (stored ≡ true → variables.base + variables.vars + n ≤ length scratch.old) × (p + n < 2 ^ 60) }
    ensures { Passed s.now.templates.now s.now.value.now variables.base variables.vars p n stored result scratch.old scratch.new }
{
    for i in 0..n {
        let Some(w) = path_value(s, scratch, variables, p + i) else {
            return false;
        };
        if stored {
            variables.behind(i).bind(scratch, w);
        }
    }
    true
}
