// A value, from its head.
ghost use Rattle.records.specs.Sizes.{ValueSize, CountBelow};

use stream::record::Record;

// How many records the value with this head has: c says so, but for a yes/no, which has no size field.
pub fn size_of(head: Record) -> usize
    ensures { ValueSize head result }
{
    if head.kind == 2 { 1 } else { head.c as usize }
}

// How many values stand directly below the value with this head: d says so of a list and a record, a case has one, a text and a yes/no
// have none. Of another kind it doesn't matter: refusal 3 is met.
pub fn count_below(head: Record) -> usize
    ensures { CountBelow head result }
{
    if head.kind == 5 {
        return 1;
    }
    if head.kind < 3 { 0 } else { head.d as usize }
}
