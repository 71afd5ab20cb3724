// The state rules tested; what breaks a row of empty answers.
#![tactic(auto)]

pub mod breaking;
pub mod rules;
