// The walk over a period's candidates.
#![tactic(auto)]

pub mod rrule_iter;
