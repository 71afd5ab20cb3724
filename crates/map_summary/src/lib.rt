// The summaries of a map, how a mark or a clear of one chunk changes them, the search down their levels.
#![tactic(auto)]

pub mod mending;
pub mod searching;
pub mod summaries;
