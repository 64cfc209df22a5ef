// Types by their numbers, and the types that paths find.
ghost use Rattle.std.specs.Prelude.{◌≡◌};
ghost use Rattle.std.proofs.Math.Option.{none};
ghost use Rattle.rules.specs.Faults.{on_found};
ghost use Rattle.rules.specs.Records.{nth};
ghost use Rattle.rules.specs.Templates.{no_type, type_at, type_of};
ghost use Rattle.rules.specs.Typing.{field_types, path_type};
ghost use Rattle.typing.specs.Answers.{found, kind_form};
ghost use Rattle.typing.specs.Asks.{TypeTable};

use crate::Kind;
use records::path::{step_at, steps_of, variable_of};
use stream::Stream;

// The head of number n in a table of heads.
pub fn head(table: &[u16], n: u16) -> Option<u16>
    ensures { found result ≡ nth table.now n }
{
    table.get(usize::from(n)).copied()
}

// The type whose head is at h.
fn type_at(t: &Stream<'_>, h: u16) -> Kind
    ensures { kind_form t.now result ≡ type_at t.now h }
{
    let r = t.fetch(usize::from(h));
    match r.a {
        0 => Kind::Text(r.b),
        1 => Kind::YesNo,
        2 => Kind::Items(r.b),
        3 => Kind::Fields(h, r.d),
        4 => Kind::Cases(h, r.d),
        _ => Kind::Missing,
    }
}

// Type n.
pub fn type_of(t: &Stream<'_>, types: &[u16], n: u16) -> Kind
    requires { TypeTable t.now types.now }
    ensures { kind_form t.now result ≡ type_of t.now n }
{
    let Some(h) = head(types, n) else {
        return Kind::Missing;
    };
    type_at(t, h)
}

// The type of field j of type n, if type n is a record that has it.
fn field_of(t: &Stream<'_>, types: &[u16], n: u16, j: u16) -> Option<u16>
    requires { TypeTable t.now types.now }
    ensures { found result ≡ on_found (field_types (type_of t.now n)) none (λ tys. nth tys j) }
{
    let Kind::Fields(h, d) = type_of(t, types, n) else {
        return None;
    };
    if j < d {
        Some(t.fetch(usize::from(h) + 1 + usize::from(j)).b)
    } else {
        None
    }
}

// The type that the path at p finds, from variables of these types.
pub fn path_type(t: &Stream<'_>, types: &[u16], vars: &[u16], p: usize) -> Option<u16>
    requires { TypeTable t.now types.now }
    ensures { found result ≡ path_type t.now vars.now p }
{
    let r = t.fetch(p);
    let mut ty = vars.get(variable_of(r)).copied()?;
    for i in 0..steps_of(r) {
        ty = field_of(t, types, ty, step_at(r, i))?;
    }
    Some(ty)
}

// What the path at p finds: missing, if it finds nothing.
pub fn path_kind(t: &Stream<'_>, types: &[u16], vars: &[u16], p: usize) -> Kind
    requires { TypeTable t.now types.now }
    ensures { kind_form t.now result ≡ on_found (path_type t.now vars.now p) no_type (type_of t.now) }
{
    let Some(n) = path_type(t, types, vars, p) else {
        return Kind::Missing;
    };
    type_of(t, types, n)
}
