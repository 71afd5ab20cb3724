// The two questions to a node, over maps lent in part.
#![tactic(auto)]

pub mod ask;
pub mod lending;
