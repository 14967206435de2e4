// The check: what is taken, and why not.
#![tactic(auto)]

mod entries;
mod filling;
pub mod validate_rrule;
