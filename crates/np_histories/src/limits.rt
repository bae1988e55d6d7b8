//! The limit of histories, which code, contracts and definitions share.

/// How many bytes the text of a history may have.
pub const LONGEST_HISTORY: usize = 67_108_864;
