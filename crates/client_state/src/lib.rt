// One session record, the sixteen, and the named changes of them.
#![tactic(auto)]

pub mod changes;
pub mod roster;
pub mod state;
