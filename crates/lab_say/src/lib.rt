// Answers, nodes, rows and log records in words.
#![tactic(auto)]

pub mod node_line;
pub mod record_line;
pub mod row_line;
pub mod say;
