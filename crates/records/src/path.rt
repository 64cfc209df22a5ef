// A path, from its record: byte 1 is its variable, byte 2 the number of its steps, bytes 3 to 7 are field numbers.
ghost use Rattle.std.specs.Prelude.{◌≡◌, ◌≤◌, ◌<◌, length};
ghost use Rattle.records.specs.Paths.{steps_in, StepIn};

use stream::record::Record;

// The number of its variable.
pub fn variable_of(path: Record) -> usize
    ensures { result ≡ path.a }
{
    path.a as usize
}

// The number of its steps: it has room for 5.
pub fn steps_of(path: Record) -> usize
    ensures { (result ≡ length (steps_in path)) × (result ≤ 5) }
{
    (path.b as usize % 256).min(5)
}

// Step i: bytes 3 to 7 are the high byte of b, and both bytes of c and d.
pub fn step_at(path: Record, i: usize) -> u16
    requires { i < length (steps_in path) }
    ensures { StepIn path i result }
{
    match i {
        0 => path.b / 256,
        1 => path.c % 256,
        2 => path.c / 256,
        3 => path.d % 256,
        _ => path.d / 256,
    }
}
