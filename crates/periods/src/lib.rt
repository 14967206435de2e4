// Where a period stands: its counter, and its days.
#![tactic(auto)]

pub mod counter_date;
