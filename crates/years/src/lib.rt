// What a rule asks of a year: which day lists it has, and the year with the masks that they need.
#![tactic(auto)]

pub mod iterinfo;
pub mod lists;
