// A rule: its types, and in specs/ what document 01 says that it means.
#![tactic(auto)]

pub mod rrule;
