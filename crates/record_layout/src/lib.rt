// Records as bytes, to and from. The definitions are crate edge.
#![tactic(auto)]

mod flags;
pub mod record;
