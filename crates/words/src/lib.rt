// Reads the words of a line (docs/LINES.md).
#![tactic(auto)]

mod cursors;
mod line;
pub mod lists;
mod manner;
mod numbers;
mod ranges;
pub mod rows;
mod text;
mod words;

pub use line::{BadWord, Line, read};
pub use text::split_once;
