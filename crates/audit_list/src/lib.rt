// A lent list of records walked, and batches of it.
#![tactic(auto)]

pub mod auditor;
pub mod batches;
