// Join, extend, enable, maintenance.
#![tactic(auto)]

pub mod enables;
pub mod extending;
pub mod joins;
