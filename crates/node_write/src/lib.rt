// A write, a sync, POOL_INFO, a row filled.
#![tactic(auto)]

pub mod fills;
pub mod writes;
