// Numbers chosen by a test, the limits, sets of member ids.
#![tactic(auto)]

pub mod numbers;
pub mod refusals;
pub mod sets;
