// The papers' limits, for the code: the numbers of specs/Limits.antt.

// the longest message that the port writes
pub const LONGEST_WRITTEN_MESSAGE: u32 = 132;

// N and W are 1 to this
pub const MOST_BUFFERS: u8 = 16;

// M is 1 to this
pub const LARGEST_PIECE: u32 = 1048576;

// Q is 0, or 2 to the power of a number from the one to the other
pub const LEAST_EXPONENT: u32 = 9;

pub const GREATEST_EXPONENT: u32 = 32;

// an agreed length is from the one to the other
pub const SHORTEST_AGREED: u32 = 64;

pub const LONGEST_AGREED: u32 = 1364;

// a message, and an SRP_CMD, has at least this
pub const SHORTEST_MESSAGE: usize = 16;

pub const SHORTEST_COMMAND: usize = 48;

// a table, and the cut's list, has at most this; so many copies stand in a message at most
pub const LONGEST_TABLE: u32 = 512;

pub const LONGEST_LIST: usize = 512;

pub const MOST_COPIES: u8 = 32;

pub const LONGEST_SENSE: usize = 96;

// the tag of a credit request and of its response
pub const CREDIT_TAG: u64 = 1;

// formats as login bits: direct alone, and direct and indirect
pub const DIRECT_ONLY: u32 = 0x0002;

pub const BOTH_FORMATS: u32 = 0x0006;
