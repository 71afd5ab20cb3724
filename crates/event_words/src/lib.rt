// A node's state as words, and back: what the lab and the library share.
#![tactic(auto)]

pub mod node_words;
pub mod words;
