// A logged event taken by the client, one record judged.
#![tactic(auto)]

pub mod auditing;
pub mod replay;
