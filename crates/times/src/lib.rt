// The times of a period, by number.
#![tactic(auto)]

pub mod iterinfo;
