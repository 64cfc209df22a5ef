// A template node, from its head.
ghost use Rattle.std.specs.Prelude.{◌≡◌, ◌<◌, eqb};
ghost use Rattle.rules.specs.Records.{field_c};
ghost use Rattle.rules.specs.Templates.{form_numbered};

use rules::Form;
use stream::Stream;
use stream::record::Record;

// The form of the node with this head.
pub fn form_of(head: Record) -> Form
    ensures { result ≡ form_numbered head.a }
{
    match head.a {
        0 => Form::Build,
        1 => Form::Literal,
        2 => Form::Place,
        3 => Form::Expand,
        4 => Form::If,
        5 => Form::For,
        6 => Form::Sequence,
        7 => Form::Match,
        _ => Form::Unknown,
    }
}

// The node with this head is a for.
pub fn is_for(head: Record) -> bool
    ensures { result ≡ eqb head.a 5 }
{
    head.a == 5
}

// How many records the node with this head has.
pub fn size_in(head: Record) -> usize
    ensures { (result ≡ head.c) × (result < 65536) }
{
    head.c as usize
}

// How many records the node at p has: where it ends, the next one begins.
pub fn size_at(t: &Stream<'_>, p: usize) -> usize
    ensures { (result ≡ field_c t.now p) × (result < 65536) }
{
    size_in(t.fetch(p))
}
