// Which days pass: the filters and the day sets.
#![tactic(auto)]

pub mod filters;
pub mod iterinfo;
mod places;
