// Dates: the year tables, and the date of a day and the day of a date by them.
#![tactic(auto)]

pub mod masks;
mod masks_365;
mod masks_366;
pub mod utils;
