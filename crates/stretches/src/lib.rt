// The days of a period.
#![tactic(auto)]

pub mod counter_date;
