// What a walk asks of its bounds, and whole days before the start, passed at one go.
#![tactic(auto)]

pub mod rrule_iter;
