// A rule written as a text (the Rust's Display).
#![tactic(auto)]

mod parts;
pub mod rrule;
