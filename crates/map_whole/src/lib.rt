// Whole maps: zeroed, copied, rows of a map, a row filled, a map in parts, which rows are empty.
#![tactic(auto)]

pub mod emptyrows;
pub mod fills;
pub mod maps;
pub mod parts;
