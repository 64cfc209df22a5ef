// The answers of calls: each is one of two.
ghost use Rattle.std.specs.Prelude.{◌≡◌};
ghost use Rattle.rules.specs.Answers.{answer};

use rules::Answer;

// A refusal before anything was written, by its number, as the definitions name it (crate feed has an enum for those of whole sets): the kind of its
// stream, or 0, and the place there.
pub fn refused(number: u8, kind: u8, place: usize) -> Answer
    ensures { result ≡ answer number kind place 0 0 }
{
    Answer {
        number: u64::from(number),
        kind: u64::from(kind),
        place: place as u64,
        steps: 0,
        bytes: 0,
    }
}

// Finished, with so many steps and bytes written.
pub fn finished(steps: u32, bytes: usize) -> Answer
    ensures { result ≡ answer 0 0 0 steps bytes }
{
    Answer {
        number: 0,
        kind: 0,
        place: 0,
        steps: u64::from(steps),
        bytes: bytes as u64,
    }
}
