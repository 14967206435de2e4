// The hours, minutes and seconds that pass.
#![tactic(auto)]

pub mod iterinfo;
