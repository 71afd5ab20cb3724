// Remove, and the awaited answers.
#![tactic(auto)]

pub mod answers;
pub mod removal;
