// Moves: from the counter of a period to that of the next one that counts.
#![tactic(auto)]

pub mod counter_date;
