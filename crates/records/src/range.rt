// A range of a class, from its record.
ghost use Rattle.std.specs.Prelude.{◌≡◌};
ghost use Rattle.records.specs.Ranges.{RangeAt};

use stream::Stream;

// A range of code points, both ends in it.
#[derive(Clone, Copy)]
pub struct Range {
    pub lowest: usize,
    pub highest: usize,
}

// The range at record i. Three bytes for each end, so 24 bits: a and b; c and the low byte of d.
pub fn range_at(g: &Stream<'_>, i: usize) -> Range
    ensures { RangeAt g.now i result }
{
    let r = g.fetch(i);
    Range {
        lowest: r.a as usize + 256 * (r.b as usize),
        highest: r.c as usize + 65536 * (r.d as usize % 256),
    }
}
