// Log records, and the journal of our own client.
#![tactic(auto)]

pub mod journal;
pub mod records;
