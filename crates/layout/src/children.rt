// The scan of a value's heads, which also puts down where its children are: for each head the number of `firsts` says where in `places` the row of
// its children's places begins. The walk then finds a field in one step. (specs/Children of crate records.)
ghost use Rattle.layout.specs.Children.{PlacesLent, PlacesPut, TableLent, TablePut};

use crate::tree::{Head, size_before};
use crate::value::value_head;
use records::value::size_of;
use stream::Stream;
use stream::record::{Place, forward, place_of};

// As `chained`, of the n children from record p on; and their places go into the row that begins at `used`.
// (That function with a write more: with the write handed in neither would be plainer.)
fn put_row(
    v: &Stream<'_>,
    n: usize,
    p: usize,
    at: Place,
    e: usize,
    used: usize,
    places: &mut [u16],
) -> bool
    requires { PlacesLent v.now p at e used places.old }
    ensures { PlacesPut v.now n p e used places.old places.new result }
{
    let mut q = p;
    let mut here = at;
    for k in 0..n {
        let Some(size) = size_before(v, q, here, e) else {
            return false;
        };
        places[used + k] = q as u16;
        q += size;
        here = forward(here, size);
    }
    q == e
}

// The records up to e, where the value at record 0 ends by its size, are exactly one value. Each head is looked at twice: in its turn, and among
// the children of another. Each child starts at a record of its own, so that `used` stays below e.
// (The loop of `one_node` with the rows put down: one function for both would need two closures, and is no plainer.)
pub fn one_value(v: &Stream<'_>, e: usize, firsts: &mut [u16], places: &mut [u16]) -> bool
    requires { TableLent v.now e firsts.old places.old }
    ensures { TablePut v.now e firsts.new places.new result }
{
    if e == 0 {
        return false;
    }
    let mut q = 0;
    let mut at = place_of(0);
    let mut used = 0;
    while q < e {
        let r = v.fetch_in(at);
        let size = size_of(r);
        let end = q + size;
        if e < end {
            return false;
        }
        let Some(Head { own, below }) = value_head(v, at, r, size) else {
            return false;
        };
        let next = q + own as usize;
        at = forward(at, own as usize);
        firsts[q] = used as u16;
        if !put_row(v, below as usize, next, at, end, used, places) {
            return false;
        }
        used += below as usize;
        q = next;
    }
    true
}
