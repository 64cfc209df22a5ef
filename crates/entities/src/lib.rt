// The five predefined entities of XML 1.0: texts escaped on their way to the output, and the inverse.
#![tactic(auto)]

pub mod entity;
pub mod escape;
pub mod first_bytes;
pub mod unescape;
mod utf8;
