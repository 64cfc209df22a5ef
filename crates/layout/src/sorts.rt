// The sorts of things that stand in rows: the classes and productions of a grammar, the types and templates of a template set.
ghost use Rattle.std.specs.Prelude.{◌≡◌, ℕ, List, Bool};
ghost use Rattle.rules.specs.Records.{of_kind};
ghost use Rattle.rules.specs.Grammar.{is_class};
ghost use Rattle.stream.specs.Record.{Fetched};
ghost use Rattle.layout.specs.Sorts.{Tells};

use records::class::is_class;
use stream::record::Record;

// A sort of things: which records are their heads.
pub(crate) trait Sort {
    ghost is: { List ℕ → ℕ → Bool };

    fn is_head(r: Record) -> bool
        ensures { Tells is r result };
}

// The classes of a grammar, plain and escaped.
pub(crate) struct Classes;

impl Sort for Classes {
    ghost is = { is_class };

    fn is_head(r: Record) -> bool {
        is_class(r)
    }
}

// The productions of a grammar.
pub(crate) struct Productions;

impl Sort for Productions {
    ghost is = { λ g. of_kind g 3 };

    fn is_head(r: Record) -> bool {
        r.kind == 3
    }
}

// The types of a template set.
pub(crate) struct Types;

impl Sort for Types {
    ghost is = { λ t. of_kind t 1 };

    fn is_head(r: Record) -> bool {
        r.kind == 1
    }
}

// The templates of a template set.
pub(crate) struct Templates;

impl Sort for Templates {
    ghost is = { λ t. of_kind t 3 };

    fn is_head(r: Record) -> bool {
        r.kind == 3
    }
}
