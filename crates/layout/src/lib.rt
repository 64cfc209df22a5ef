// Refusal 3 of the three streams, and what later steps look up: the tables of heads, and the rows of a value's children.
#![tactic(auto)]

mod children;
mod common;
pub mod grammar;
pub mod heads;
mod sorts;
pub mod template;
mod tree;
pub mod value;
