// Pool and client as words.
#![tactic(auto)]

pub mod client_words;
pub mod pool_words;
