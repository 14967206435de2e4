// Puts bytes, words, numbers and moments into a text. Where the text has no place for a byte nothing is put, but the place goes on: so a text is measured by
// writing it into nothing.
#![tactic(auto)]

pub mod bytes;
pub mod instants;
pub mod letters;
pub mod numbers;
