// The limits, as specs/Limits.antt has them.
pub const MEMBERS: u64 = 16;

pub const CHUNK_LIMIT: u64 = 4096;

pub const MAP_BYTES: usize = 8192;

pub const ANSWER_LIMIT: u64 = 168;

pub const VERSION_LIMIT: u64 = 9223372036854775774;

pub const VERSION_TOP: u64 = 9223372036854775791;
