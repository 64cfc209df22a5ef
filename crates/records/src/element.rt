// An element of a production, from its record.
ghost use Rattle.std.specs.Prelude.{◌≡◌, ◌≤◌};
ghost use Rattle.rules.specs.Records.{units};
ghost use Rattle.records.specs.Sizes.{TextLength, ElementSize, repeats};

use stream::record::Record;

// How many units of 8 bytes a text of n bytes takes.
pub fn units(n: usize) -> usize
    requires { n ≤ 65535 }
    ensures { result ≡ units n }
{
    n.div_ceil(8)
}

// How many bytes of text follow the element: the b of a keyword, the c of a separator.
pub fn text_length(e: Record) -> u16
    ensures { TextLength e result }
{
    match e.a {
        0 => e.b,
        4 => e.c,
        _ => 0,
    }
}

// The element is a repetition, with a separator or without.
pub fn is_repetition(e: Record) -> bool
    ensures { result ≡ repeats e.a }
{
    e.a == 3 || e.a == 4
}

// How many records the element has: its own, and those of its text. (By the forms once more, and not by `text_length`: a build does this for
// every element, and it is shorter code.)
pub fn size_of(e: Record) -> usize
    ensures { ElementSize e result }
{
    match e.a {
        0 => 1 + units(e.b as usize),
        4 => 1 + units(e.c as usize),
        _ => 1,
    }
}
