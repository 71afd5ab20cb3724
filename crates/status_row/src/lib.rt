// A row as descriptors, and back.
#![tactic(auto)]

pub mod descriptors;
pub mod reader;
pub mod writer;
