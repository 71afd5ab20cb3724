// The rules of the client: the types that they speak of; the rules are in specs/.
#![tactic(auto)]

use rules_base::Op;
use rules_pool::{Answer, Effect, Posted};

// What a removal came to: the pool with the awaited message, and what is to be done to the client map.
#[derive(Clone, Copy)]
pub struct Gone {
    pub posted: Posted,
    pub effect: Effect,
}

// What the check knows beside the pool. tick: the number of the last tick. due: the members that were asked and have not answered. once: those of which one empty
// answer stands. The types hold nothing else, so that no value breaks a rule.
#[derive(Clone, Copy)]
pub struct Check {
    pub tick: u32,
    pub due: u16,
    pub once: u16,
}

// What a tick or an answer hands back: the pool stays.
#[derive(Clone, Copy)]
pub struct Checked {
    pub answer: Answer,
    pub check: Check,
    pub effect: Effect,
}
