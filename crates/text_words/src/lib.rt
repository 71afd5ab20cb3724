// Words and lines in: names, the words of a line, lines out of standard input.
#![tactic(auto)]

pub mod fetching;
pub mod lines;
pub mod names;
