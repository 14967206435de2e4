// What is asked everywhere of a rule's parts and of a run's: whether a set is empty, the numbers of a frequency, a refusal and a fault, the fresh
// cursor, and the answer of a refused run.
#![tactic(auto)]

pub mod faults;
pub mod lists;
pub mod rrule;
