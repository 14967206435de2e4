// A period opened: its candidates by number, and how many are kept.
#![tactic(auto)]

pub mod period;
