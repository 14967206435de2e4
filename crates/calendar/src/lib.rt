// The proleptic Gregorian calendar: days, years, months and weekdays. A day is a number of days
// since 0001-01-01, a Monday.
#![tactic(auto)]

pub mod utils;
