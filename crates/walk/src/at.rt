// A node to visit, how it is made from another, and how a run goes on or stops there.
ghost use Rattle.std.specs.Prelude.{◌≡◌, ◌≤◌, ◌<◌, ◌^◌};
ghost use Rattle.walk.specs.Nodes.{Entered, counted_at, after_at, below_at, placed_at, bound_at, framed_at, progress_at, stopped_at};
ghost use Rattle.walk.specs.Run.{going_of};

use crate::state::{Progress, Stop, Why};
use crate::variables::Frame;

// Its place; the record of the element that it stands for, which says what its position asks for, or 0 where it stands for none: a body, an item,
// a for; the frame of its variables; the levels that are left, its own among them; all the fuel; the steps and the bytes so far.
#[derive(Clone, Copy)]
pub struct At {
    pub node: usize,
    pub element: usize,
    pub frame: Frame,
    pub left: usize,
    pub fuel: u32,
    pub steps: u32,
    pub bytes: usize,
}

impl At {
    // The node, its step counted: it is tried for fuel, counts one step, and is tried for a level.
    pub fn entered(self) -> Result<At, Stop>
        ensures { Entered self result }
    {
        if self.fuel <= self.steps {
            return Err(self.stopped(Why::FuelSpent));
        }
        let here = self.counted();
        if self.left == 0 {
            return Err(here.stopped(Why::TooDeep));
        }
        Ok(here)
    }

    fn counted(mut self) -> At
        requires { self.steps < self.fuel }
        ensures { result ≡ counted_at self }
    {
        self.steps += 1;
        self
    }

    // The node, after a run that went on.
    pub fn after(mut self, so_far: Progress) -> At
        ensures { result ≡ after_at self (going_of so_far) }
    {
        self.steps = so_far.steps;
        self.bytes = so_far.bytes;
        self
    }

    // A node one level below, for an element, with the same variables.
    pub fn below(mut self, node: usize, element: usize) -> At
        requires { 1 ≤ self.left }
        ensures { result ≡ below_at self node element }
    {
        self.node = node;
        self.element = element;
        self.left -= 1;
        self
    }

    // Another node, with all else the same.
    pub fn placed(mut self, node: usize) -> At
        ensures { result ≡ placed_at self node }
    {
        self.node = node;
        self
    }

    // The node, with one variable more.
    pub fn bound(mut self) -> At
        requires { self.frame.vars < 2 ^ 16 }
        ensures { result ≡ bound_at self }
    {
        self.frame.vars += 1;
        self
    }

    // The node, with other variables.
    pub fn framed(mut self, frame: Frame) -> At
        ensures { result ≡ framed_at self frame }
    {
        self.frame = frame;
        self
    }

    // How a run goes on from here.
    pub fn progress(self) -> Progress
        ensures { result ≡ progress_at self }
    {
        Progress {
            bytes: self.bytes,
            steps: self.steps,
        }
    }

    // A run that stops here.
    pub fn stopped(self, why: Why) -> Stop
        ensures { result ≡ stopped_at why self }
    {
        Stop {
            place: self.node,
            bytes: self.bytes,
            steps: self.steps,
            why,
        }
    }

    // A run that is stuck here: no accepted set brings it there.
    pub fn stuck(self) -> Stop
        ensures { result ≡ stopped_at Why.Stuck self }
    {
        self.stopped(Why::Stuck)
    }
}
