// The variables: numbers of the scratch, each the place of a value.
ghost use Rattle.std.specs.Prelude.{◌≡◌, ◌+◌, ◌≤◌, ◌<◌, ◌^◌, length};
ghost use Rattle.rules.specs.Records.{nth};
ghost use Rattle.walk.specs.Frames.{frame, Bound};
ghost use Rattle.walk.specs.Lookups.{lookup_of};
ghost use Rattle.walk.specs.Nodes.{behind_of};

// A frame: `vars` numbers of the scratch in a row, from `base` on.
#[derive(Clone, Copy)]
pub struct Frame {
    pub base: usize,
    pub vars: usize,
}

impl Frame {
    // Variable k.
    pub fn variable(self, scratch: &[u16], k: usize) -> Option<u16>
        requires { self.base + self.vars ≤ length scratch.now }
        ensures { lookup_of result ≡ nth (frame self.base self.vars scratch.now) k }
    {
        scratch[self.base..self.base + self.vars].get(k).copied()
    }

    // One variable more, right behind those of the frame: the whole value, a parameter, a loop's item, the content of a case.
    pub fn bind(self, scratch: &mut [u16], w: u16)
        requires { self.base + self.vars < length scratch.old }
        ensures { Bound self.base self.vars w scratch.old scratch.new }
    {
        scratch[self.base + self.vars] = w;
    }

    // A frame of so many variables right behind this one.
    pub fn behind(self, vars: usize) -> Frame
        requires { self.base + self.vars < 2 ^ 64 }
        ensures { result ≡ behind_of self vars }
    {
        Frame {
            base: self.base + self.vars,
            vars,
        }
    }
}
