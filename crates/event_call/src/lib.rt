// Any event as one function; its contract is Meets.
#![tactic(auto)]

pub mod client_event;
pub mod node_event;
