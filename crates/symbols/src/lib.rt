// How readers of symbols are put together, for any grammar over bytes, and that each stops where no word can go on: a type, and no function.
#![tactic(auto)]

// The best match so far of the words of a table: the number of the word that is found, if any, and how many bytes match.
#[derive(Clone, Copy)]
pub struct Best {
    pub which: Option<usize>,
    pub count: usize,
}
