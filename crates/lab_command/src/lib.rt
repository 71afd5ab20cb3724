// A line to its command.
#![tactic(auto)]

pub mod commands;
pub mod events;
pub mod reading;
