// Writes and syncs at a node, and POOL_INFO. Each event is a function on values: what the lent maps refuse with comes as a number, and what is to be done to
// them goes out as data.
pub mod info;
pub mod write;
