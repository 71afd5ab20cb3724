// Maps and summaries set by a command.
#![tactic(auto)]

pub mod arranging;
pub mod truing;
