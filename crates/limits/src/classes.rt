// Refusal 6: the bounds of classes and of their ranges.
ghost use Rattle.std.specs.Prelude.{◌≡◌};
ghost use Rattle.rules.specs.Classes.{range_right, bounds_right, grammar_classes};
ghost use Rattle.stream.specs.Fault.{fault_of};
ghost use Rattle.limits.specs.Tables.{ClassTable};
ghost use Rattle.limits.specs.Rows.{ranges_right};

use records::class::is_escaped;
use records::range::range_at;
use stream::Stream;

// The last code point of Unicode.
const LAST: usize = 0x10ffff;

// Whether the range at r has lowest at most highest, and that within Unicode.
#[tactic(auto, unfolding(rules::specs::Classes::range_right))]
fn is_right(g: &Stream<'_>, r: usize) -> bool
    ensures { result ≡ range_right g.now r }
{
    let range = range_at(g, r);
    range.lowest <= range.highest && range.highest <= LAST
}

// The ranges of the class at p, so many.
fn ranges_right(g: &Stream<'_>, p: u16, count: u16) -> Result<(), usize>
    ensures { fault_of result ≡ ranges_right g.now count p }
{
    let first = p as usize + 1;
    for r in first..first + count as usize {
        if !is_right(g, r) {
            return Err(r);
        }
    }
    Ok(())
}

// The class at p: its least and most, then its ranges. An escaped one has none of them.
fn bounds_right(g: &Stream<'_>, p: u16) -> Result<(), usize>
    ensures { fault_of result ≡ bounds_right g.now p }
{
    let head = g.fetch(p as usize);
    if is_escaped(head) {
        return Ok(());
    }
    if head.c < head.b {
        return Err(p as usize);
    }
    ranges_right(g, p, head.d)
}

// The place of the first class with least above most, or range with lowest above highest or past U+10FFFF.
pub fn grammar_classes(g: &Stream<'_>, classes: &[u16]) -> Result<(), usize>
    requires { ClassTable g.now classes.now }
    ensures { fault_of result ≡ grammar_classes g.now }
{
    for &p in classes {
        bounds_right(g, p)?;
    }
    Ok(())
}
