// Register, join, leave, enable, fault.
#![tactic(auto)]

pub mod enables;
pub mod joins;
pub mod register;
