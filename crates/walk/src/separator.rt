// What stands between the items of a sequence.
ghost use Rattle.std.specs.Prelude.{ℕ, ◌≤◌, ◌≡◌, length};
ghost use Rattle.walk.specs.Nodes.{fills_at, Between, due_at, separate_at};
ghost use Rattle.walk.specs.Run.{RanFrom, seen};

use crate::at::At;
use crate::state::{Progress, Stop};
use crate::writer::write;
use records::element::{is_repetition, text_length};
use stream::Stream;
use stream::record::Record;

// The place of the sequence, which is that of a separator's 12; the record of the element that it stands for, behind which the separator lies;
// how many bytes that has.
#[derive(Clone, Copy)]
pub struct Separator {
    pub sequence: usize,
    pub element: usize,
    pub length: u16,
}

// Whether the position of an element asks for a repetition: e is its record. Element 0 stands for a nonterminal.
pub fn fills(element: usize, e: Record) -> bool
    ensures { result ≡ fills_at element e }
{
    element != 0 && is_repetition(e)
}

// The separator of a sequence: e is the record of the element that it stands for.
pub fn separator_of(at: At, e: Record) -> Separator
    ensures { Between at e result }
{
    Separator {
        sequence: at.node,
        element: at.element,
        length: text_length(e),
    }
}

// Whether a separator is written before an item that has so many before it in its sequence: not before the first, and most repetitions have none.
// (It is asked outside `separate`, so that an item without a separator costs no call.)
pub fn is_due(sep: Separator, before: usize) -> bool
    ensures { result ≡ due_at sep before }
{
    before != 0 && sep.length != 0
}

// Writes the separator before an item that is not the first of its sequence.
pub fn separate(g: &Stream<'_>, sep: Separator, out: &mut [u8], at: At) -> Result<Progress, Stop>
    requires { at.bytes ≤ length out.old }
    ensures { (before : ℕ) → (before ≡ 0 → ⊥) → RanFrom (separate_at g.now sep before at out.old) at (seen result) out.old out.new }
{
    write(g, sep.element, sep.length, out, at.placed(sep.sequence))
}
