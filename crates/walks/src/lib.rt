// A period's candidates, and what a walk over them is.
#![tactic(auto)]

pub mod rrule_iter;
