// The tests on a storage node's state, the named changes that its events are made of, and how a turn is put together.
#![tactic(auto)]

pub mod change;
pub mod state_rules;
pub mod states;
pub mod turns;
