// The places of a year's tables, and the mask of the nth weekdays.
#![tactic(auto)]

pub mod monthinfo;
pub mod places;
