// Refusals 4, 5 and 6: what records may hold, what they may name, and the bounds of classes. Each rule answers the place of the first head that
// offends. The tables of heads are lent: a thing is named by its number, and exists if that is below the length of its table. The layout was
// judged before, so each head stands in one row only, and the time of a rule grows with the records that it looks at.
#![tactic(auto)]

pub mod classes;
pub mod grammar;
pub mod names;
mod node;
pub mod nonterminals;
mod plain;
pub mod templates;
pub mod value;

// So many levels template nodes and values may nest.
pub(crate) const DEEPEST: usize = 200;
