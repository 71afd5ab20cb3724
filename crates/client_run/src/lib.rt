// A run as data, when one begins and ends, the one exit of an event.
#![tactic(auto)]

pub mod exits;
pub mod recovery;
pub mod run;
