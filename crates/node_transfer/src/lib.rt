// A map given, and a map taken.
#![tactic(auto)]

pub mod hand;
pub mod serve;
