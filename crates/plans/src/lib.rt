// What a call needs of its rule, made once.
#![tactic(auto)]

pub mod plan;
