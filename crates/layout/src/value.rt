// The value's layout: one value, then zero records.
ghost use Rattle.std.specs.Prelude.{◌≡◌, true, ℕ, ◌≤◌, length};
ghost use Rattle.rules.specs.Faults.{need};
ghost use Rattle.rules.specs.Records.{record_count};
ghost use Rattle.rules.specs.Layout.{value_layout};
ghost use Rattle.stream.specs.Record.{Fetched, place_of};
ghost use Rattle.records.specs.Children.{Children};
ghost use Rattle.layout.specs.Tree.{Value, yes_no, case_head, head_end, below, Headed, HeadIn};

use crate::children::one_value;
use crate::common::{record_count, tail_right, whole};
use crate::tree::{Head, text_head};
use records::value::size_of;
use stream::Stream;
use stream::record::{Place, Record};

// A yes/no: 0 or 1, and no size.
fn yes_no(r: Record) -> bool
    ensures { result ≡ yes_no r }
{
    r.a <= 1 && r.b == 0 && r.c == 0 && r.d == 0
}

// A case: any number, its size, and one value below it.
fn is_case(r: Record) -> bool
    ensures { result ≡ case_head r }
{
    r.b == 0 && r.d == 0
}

// A value's head, by its kind.
pub(crate) fn value_head(v: &Stream<'_>, at: Place, r: Record, size: usize) -> Option<Head>
    requires { HeadIn v.now at r size }
    ensures { (p : ℕ) → at ≡ place_of p → Fetched v.now p r → Headed p result (head_end Value v.now p) (below Value v.now p) }
{
    match r.kind {
        1 if r.a == 0 && r.d == 0 => text_head(v, at, r, size),
        2 if yes_no(r) => Some(Head { own: 1, below: 0 }),
        3 | 4 if r.a == 0 && r.b == 0 => Some(Head {
            own: 1,
            below: u32::from(r.d),
        }),
        5 if is_case(r) => Some(Head { own: 1, below: 1 }),
        _ => None,
    }
}

// The records of a value are laid out: refusal 3 where they are not. Where they are, the rows have the places of all children; a value of n records
// has fewer than n, so that a small stream takes small rows.
pub fn value_layout(v: &Stream<'_>, firsts: &mut [u16], places: &mut [u16]) -> bool
    requires firsts_room { record_count v.now ≤ length firsts.old }
    requires places_room { record_count v.now ≤ length places.old }
    ensures { (need result 0 ≡ value_layout v.now) × (result ≡ true → Children v.now firsts.new places.new) }
{
    whole(v);
    let e = size_of(v.fetch(0));
    e <= record_count(v) && one_value(v, e, firsts, places) && tail_right(v, e)
}
