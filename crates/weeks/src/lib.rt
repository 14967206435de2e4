// Years as the day sets need them, and week numbers over a year.
#![tactic(auto)]

pub mod yearinfo;
