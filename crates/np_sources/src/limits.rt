//! The limits of runs on sites, which code, contracts and definitions share.

/// The budget of each site where a generated source is run.
pub const LOAD_BUDGET: u32 = 200_000;
