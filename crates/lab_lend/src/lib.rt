// Events over maps that are lent in part.
#![tactic(auto)]

pub mod client_event;
pub mod node_event;
