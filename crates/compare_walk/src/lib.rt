// Two dumps: their refusals and the newer row; the next difference, and the law of the whole walk.
#![tactic(auto)]

pub mod differences;
pub mod dumps;
