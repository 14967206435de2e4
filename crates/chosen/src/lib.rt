// The walk over the candidates that positions choose.
#![tactic(auto)]

pub mod rrule_iter;
