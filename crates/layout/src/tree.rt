// A template's body and a value are trees: a head with the records that belong to it alone, then the things below it. They may be thousands deep
// when their layout is judged, so nothing calls itself and no level is kept: the heads are gone over in a row, and the things below each must end,
// by their sizes, where it ends itself. Here is what both share; their scans are `one_node` and `one_value`.
ghost use Rattle.std.specs.Prelude.{◌≡◌, ℕ, ◌+◌, ◌<◌, MatchOption};
ghost use Rattle.rules.specs.Records.{units, padding_of, zeros};
ghost use Rattle.rules.specs.Value.{value_size};
ghost use Rattle.stream.specs.Record.{Fetched, place_of};
ghost use Rattle.layout.specs.Tree.{chain, Stopped, SizedBefore, text_head, Headed, Chains, LiesIn, HeadIn};

use crate::common::padded;
use records::element::units;
use records::value::size_of;
use stream::Stream;
use stream::record::{Place, Record, forward};

// What the records say of a head: how many of them belong to it alone, and how many things stand directly below it.
#[derive(Clone, Copy, Debug, PartialEq, Eq)]
pub struct Head {
    pub own: u32,
    pub below: u32,
}

// The size of the thing at record q, at a place, where it starts before record e and has one. A node's size is read as a value's: no node has the
// kind of a yes/no.
pub fn size_before(s: &Stream<'_>, q: usize, at: Place, e: usize) -> Option<usize>
    requires { Chains s.now q at e }
    ensures { MatchOption result (Stopped s.now q e) (SizedBefore s.now q e) }
{
    if e <= q {
        return None;
    }
    let size = size_of(s.fetch_in(at));
    if size == 0 { None } else { Some(size) }
}

// The n things from record p on, at a place, end at record e by their sizes. Each must start before e and have a size, so that no count makes
// this long.
pub fn chained(s: &Stream<'_>, n: usize, p: usize, at: Place, e: usize) -> bool
    requires { Chains s.now p at e }
    ensures { result ≡ chain (value_size s.now) n p e }
{
    let mut q = p;
    let mut here = at;
    for _ in 0..n {
        let Some(size) = size_before(s, q, here, e) else {
            return false;
        };
        q += size;
        here = forward(here, size);
    }
    q == e
}

// A head that is followed by a text, and by nothing below it. Its size is held against the text's units first, so that the text lies in the stream.
pub fn text_head(s: &Stream<'_>, at: Place, r: Record, size: usize) -> Option<Head>
    requires { HeadIn s.now at r size }
    ensures { (p : ℕ) → at ≡ place_of p → Fetched s.now p r → Headed p result (text_head s.now p) 0 }
{
    if size != 1 + units(r.b as usize) {
        return None;
    }
    // The unit n records on. (With its clauses, since none are inferred for a closure that holds a stream.)
    let unit = |n: usize| -> Record
        requires { LiesIn s.now at (n + 1) × (n < 65536) }
        ensures { (p : ℕ) → at ≡ place_of p → Fetched s.entry.now (p + n) result }
    { s.fetch_in(forward(at, n)) };
    if padded(r.b, unit) {
        Some(Head {
            own: size as u32,
            below: 0,
        })
    } else {
        None
    }
}
