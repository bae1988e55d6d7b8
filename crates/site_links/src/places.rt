/// How many items may wait on a link.
pub const PLACES: u32 = 64;
