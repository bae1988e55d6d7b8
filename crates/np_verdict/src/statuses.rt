//! The exit statuses of the program, which code, contracts and definitions share.

/// What the command line asks for is done; a run came to rest.
pub const DONE: u8 = 0;

/// A run spent its budget.
pub const BUDGET_SPENT: u8 = 1;

/// np does not take the command line.
pub const BAD_USAGE: u8 = 2;

/// The source is refused.
pub const BAD_SOURCE: u8 = 3;

/// A text cannot be read.
pub const READ_FAILED: u8 = 4;

/// Standard output or standard error could not be written whole.
pub const WRITE_FAILED: u8 = 5;

/// Out of memory.
pub const NO_MEMORY: u8 = 6;

/// The history is refused.
pub const BAD_HISTORY: u8 = 7;
