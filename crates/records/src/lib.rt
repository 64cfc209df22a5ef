// What a record means: each reading once, with its contract and its law. Who reads more of a record than one number goes through these, so
// that a form that comes to mean more changes here; a kind or a form that decides a step is asked for by its number, as the definitions do. The table of a value's children is described in specs/Children; crate layout fills it, crate walk reads it.
#![tactic(auto)]

pub mod class;
pub mod element;
pub mod node;
pub mod path;
pub mod production;
pub mod range;
pub mod value;
