// Ticks: the search for the next tick of the day that passes.
#![tactic(auto)]

pub mod counter_date;
