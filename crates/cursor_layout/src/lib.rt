// Numbers and cursors as bytes, to and from. The definitions are crate edge.
#![tactic(auto)]

pub mod cursor;
pub mod numbers;
