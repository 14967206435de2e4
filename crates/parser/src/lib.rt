// A rule's text, read (the Rust's parser/).
#![tactic(auto)]

pub mod rule_content_line;
