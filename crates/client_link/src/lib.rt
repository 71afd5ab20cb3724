// Link down, store check, rejoin, try; a write that ended, a chunk that was synced.
#![tactic(auto)]

pub mod links;
pub mod writes;
