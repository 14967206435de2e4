// The positions of BYSETPOS: which candidates of a period are kept, by their numbers alone.
#![tactic(auto)]

pub mod pos_list;
