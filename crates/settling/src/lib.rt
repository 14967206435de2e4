// After the walk over a period: the answer of a call, or a move.
#![tactic(auto)]

pub mod rrule_iter;
