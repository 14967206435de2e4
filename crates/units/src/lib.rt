// The seconds of a period's unit, and the year that a day lies in.
#![tactic(auto)]

pub mod unit;
pub mod year;
