// Whether a number is that of a plain class: escaped classes and text types may name no other.
ghost use Rattle.std.specs.Prelude.{◌≡◌};
ghost use Rattle.rules.specs.Faults.{exists};
ghost use Rattle.rules.specs.Grammar.{plain_class};
ghost use Rattle.limits.specs.Tables.{ClassTable};

use stream::Stream;

pub(crate) fn is_plain_class(g: &Stream<'_>, classes: &[u16], c: u16) -> bool
    requires { ClassTable g.now classes.now }
    ensures { result ≡ exists (plain_class g.now c) }
{
    let n = c as usize;
    n < classes.len() && g.fetch(classes[n] as usize).kind == 1
}
