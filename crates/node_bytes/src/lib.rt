// What is done to the bytes of a node's maps, and how its summaries follow.
#![tactic(auto)]

pub mod maps;
pub mod summaries;
