// Which day lists are asked together, and the day sets that need no filter: all days of a stretch, and those of some months.
#![tactic(auto)]

pub mod filters;
pub mod iterinfo;
