// Whether a cursor fits the period that is opened.
#![tactic(auto)]

pub mod cursors;
