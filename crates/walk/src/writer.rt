// The writer, and a place, which does nothing but write.
ghost use Rattle.std.specs.Prelude.{◌≡◌, ◌+◌, ◌≤◌, ◌<◌, ◌^◌, length};
ghost use Rattle.rules.specs.Records.{text_of};
ghost use Rattle.rules.specs.Escape.{escape};
ghost use Rattle.walk.specs.Asks.{FollowsIn, InReach};
ghost use Rattle.walk.specs.Nodes.{write_at, written_at, place_at};
ghost use Rattle.walk.specs.Marks.{ProductionHeads, PlaceText};
ghost use Rattle.walk.specs.Run.{RanFrom, seen};
ghost use Rattle.walk.specs.Visits.{sources_of};

use crate::at::At;
use crate::paths::path_value;
use crate::sources::Sources;
use crate::state::{Progress, Stop, Why};
use crate::tables::is_escaped_at;
use entities::escape::{copy_escaped, is_own_form};
use stream::Stream;
use stream::text::copy_text;

// Writes the n bytes of text after the head at record i, a keyword's, a literal's, a value's or a separator's, behind what is written so far,
// whole or not at all: it is copied to the beginning of what is left of the output.
pub fn write(s: &Stream<'_>, i: usize, n: u16, out: &mut [u8], at: At) -> Result<Progress, Stop>
    requires { at.bytes ≤ length out.old }
    ensures { RanFrom (write_at at (text_of s.now n i) out.old) at (seen result) out.old out.new }
{
    let bytes = at.bytes;
    let left = out.len() - bytes;
    let text = s.text_after(i, usize::from(n));
    let long = copy_text(s.bytes(), text, &mut out[bytes..]);
    written(at, left, long)
}

// The same of the text's escaped form. (One function with the copy as a closure would be no plainer: each call would have to say what was copied.)
fn write_escaped(s: &Stream<'_>, i: usize, n: u16, out: &mut [u8], at: At) -> Result<Progress, Stop>
    requires { at.bytes ≤ length out.old }
    ensures { RanFrom (write_at at (escape (text_of s.now n i)) out.old) at (seen result) out.old out.new }
{
    let bytes = at.bytes;
    let left = out.len() - bytes;
    let text = s.text_after(i, usize::from(n));
    let long = copy_escaped(s.bytes(), text, &mut out[bytes..]);
    written(at, left, long)
}

// The run after a text of so many bytes was to be written where so many are left.
fn written(at: At, left: usize, long: usize) -> Result<Progress, Stop>
    requires { at.bytes + left < 2 ^ 64 }
    ensures { seen result ≡ written_at at left long }
{
    if left < long {
        return Err(at.stopped(Why::OutputFull));
    }
    Ok(Progress {
        bytes: at.bytes + long,
        steps: at.steps,
    })
}

// Whether the text of n bytes after the head at record i of v is written as it stands for an element: it is, unless its position asks for a
// lexeme of an escaped class. Even there most texts have none of the five.
fn as_it_stands(s: &Sources<'_>, element: usize, i: usize, n: u16) -> bool
    requires { (ProductionHeads s.now.grammar.now s.now.production_heads.now) × (1 ≤ length s.now.production_heads.now) }
    ensures { PlaceText s.now.grammar.now element (text_of s.now.value.now n i) result }
{
    !is_escaped_at(s.grammar, s.production_heads, element)
        || is_own_form(s.value.bytes(), s.value.text_after(i, usize::from(n)))
}

// A place writes the text that its path finds: in the position of an escaped class, its escaped form.
pub fn place(s: &Sources<'_>, out: &mut [u8], scratch: &[u16], at: At) -> Result<Progress, Stop>
    requires { (FollowsIn (sources_of s.now) at.frame.base at.frame.vars scratch.now) × (InReach 1 at.node) × (at.bytes ≤ length out.old) × (ProductionHeads s.now.grammar.now s.now.production_heads.now) × (1 ≤ length s.now.production_heads.now) }
    ensures { RanFrom (place_at s.now.grammar.now s.now.templates.now s.now.value.now at out.old scratch.now) at (seen result) out.old out.new }
{
    let Some(w) = path_value(s, scratch, at.frame, at.node + 1) else {
        return Err(at.stuck());
    };
    let i = usize::from(w);
    let head = s.value.fetch(i);
    if head.kind != 1 {
        return Err(at.stuck());
    }
    if as_it_stands(s, at.element, i, head.b) {
        write(s.value, i, head.b, out, at)
    } else {
        write_escaped(s.value, i, head.b, out, at)
    }
}
