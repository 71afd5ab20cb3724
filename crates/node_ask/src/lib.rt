// Map check, and the next dirty chunk: questions that change nothing.
#![tactic(auto)]

pub mod checks;
pub mod next;
