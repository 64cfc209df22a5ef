// A class, from its record: a plain one, or an escaped one, which names a plain one.
ghost use Rattle.std.specs.Prelude.{◌≡◌, ◌||◌, eqb};

use stream::record::Record;

// The record declares a class.
pub fn is_class(r: Record) -> bool
    ensures { result ≡ (eqb r.kind 1 || eqb r.kind 5) }
{
    r.kind == 1 || r.kind == 5
}

// The class is an escaped one.
pub fn is_escaped(r: Record) -> bool
    ensures { result ≡ eqb r.kind 5 }
{
    r.kind == 5
}
