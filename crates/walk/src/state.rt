// How a run goes, and how it comes out: what the walk's functions hand back to one another, and what the walk answers.
ghost use Rattle.std.specs.Prelude.{◌≡◌};
ghost use Rattle.walk.specs.Run.{number_of, seen};

// A run that goes on: its steps, and how many bytes of the output are written.
#[derive(Clone, Copy)]
pub struct Progress {
    pub bytes: usize,
    pub steps: u32,
}

// Why a run stops: a limit of the call; or the definition is stuck there, to which no accepted set brings it.
#[derive(Clone, Copy)]
pub enum Why {
    FuelSpent,
    TooDeep,
    OutputFull,
    Stuck,
}

impl From<Why> for u32 {
    ghost from_gives = { λ w n. n ≡ number_of w };

    fn from(why: Why) -> u32 {
        match why {
            Why::FuelSpent => 10,
            Why::TooDeep => 11,
            Why::OutputFull => 12,
            Why::Stuck => 99,
        }
    }
}

// A run that stops, at the node at `place`.
#[derive(Clone, Copy)]
pub struct Stop {
    pub place: usize,
    pub bytes: usize,
    pub steps: u32,
    pub why: Why,
}

// A for that goes on, and how many items its sequence has had by then.
#[derive(Clone, Copy)]
pub struct Turns {
    pub so_far: Progress,
    pub items: usize,
}

// How the walk comes out. Its number is 0 where it came to its end, and else that of what stopped it; the node that it stopped at is at `place`.
// `bytes` of the output are written.
#[derive(Clone, Copy)]
pub struct Run {
    pub place: usize,
    pub bytes: usize,
    pub steps: u32,
    // A number, not an Option<Why>: the contract of `run`, `view` of it and crate feed speak of the numbers of the paper.
    pub number: u32,
}

pub(crate) fn come_out(end: Result<Progress, Stop>) -> Run
    ensures { result ≡ seen end }
{
    match end {
        Ok(done) => Run {
            place: 0,
            bytes: done.bytes,
            steps: done.steps,
            number: 0,
        },
        Err(stop) => Run {
            place: stop.place,
            bytes: stop.bytes,
            steps: stop.steps,
            number: u32::from(stop.why),
        },
    }
}
