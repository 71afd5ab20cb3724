// Messages to their nodes, and the answers back.
#![tactic(auto)]

pub mod delivery;
pub mod heard;
pub mod post;
