// Refusal 4 of a value: how deep it nests.
ghost use Rattle.std.specs.Prelude.{◌≡◌};
ghost use Rattle.rules.specs.Limits.{value_limits};
ghost use Rattle.stream.specs.Fault.{fault_of};
ghost use Rattle.limits.specs.Rows.{ValueRow, values_within};

use crate::DEEPEST;
use records::value::{count_below, size_of};
use stream::Stream;
use stream::record::{Place, forward, place_of};

// A row of values and all below them, where left levels may follow each other. Each head is read once, at a place that is carried on.
fn values_within(
    v: &Stream<'_>,
    first: usize,
    from: Place,
    count: usize,
    left: usize,
) -> Result<(), usize>
    requires { ValueRow left first from count }
    ensures { fault_of result ≡ values_within v.now left count first }
{
    if count == 0 {
        return Ok(());
    }
    if left == 0 {
        return Err(first);
    }
    let mut at = first;
    let mut place = from;
    for _ in 0..count {
        let head = v.fetch_at(place);
        let size = size_of(head);
        // Where the row goes on is found before the call, so that a level keeps no size: 200 levels of calls are deep.
        let after = at + size;
        let next = forward(place, size);
        let below = count_below(head);
        // Most values have none below them, and cost no call.
        if below != 0 {
            let inside = forward(place, 1);
            values_within(v, at + 1, inside, below, left - 1)?;
        }
        at = after;
        place = next;
    }
    Ok(())
}

// The place of the first value that is over 200 deep.
pub fn value_limits(v: &Stream<'_>) -> Result<(), usize>
    ensures { fault_of result ≡ value_limits v.now }
{
    values_within(v, 0, place_of(0), 1, DEEPEST)
}
