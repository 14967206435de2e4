// The run of a rule: its periods opened one after the other, and the walk over them.
#![tactic(auto)]

pub mod rrule_iter;
mod walking;
