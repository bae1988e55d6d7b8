//! The limits of sources and runs, which code, contracts and definitions share.

/// How many bytes a source may have.
pub const LONGEST_SOURCE: usize = 1_048_576;

/// How many bytes a text may have whose tokens are read.
pub const LONGEST_TEXT: usize = 16_777_216;

/// How many bytes a name may have.
pub const LONGEST_NAME: usize = 64;

/// How many bytes a string may have, after its escapes are read.
pub const LONGEST_STRING: usize = 1024;

/// How many components a tuple, a tuple pattern or a tuple type may have.
pub const MOST_PARTS: u32 = 16;

/// How deep the processes and each expression, pattern and type may be.
pub const DEEPEST: u32 = 200;

/// How many sites a program may have.
pub const MOST_SITES: u32 = 128;

/// How many process nodes a program may have.
pub const MOST_NODES: u32 = 16_777_217;

/// How many binders a program may have.
pub const MOST_BINDERS: u32 = 16_777_217;

/// How many tokens a source may have: one for each of its bytes, and the end.
pub const MOST_TOKENS: usize = 1_048_577;

/// How many nodes a type may have where it is written, and as the type of a tuple.
pub const WIDEST_TYPE: u32 = 1024;

/// How many events a run may have where the words do not say it.
pub const USUAL_BUDGET: u32 = 10_000;

/// The largest number of events that the words may say.
pub const LARGEST_BUDGET: u32 = 200_000;

/// How many events all sites of a run together may make: the number of sites times the budget is at most this.
pub const MOST_EVENTS: u32 = 6_400_000;

/// From this number on no stamp of an item is accepted.
pub const STAMPS_END: u64 = 1_099_511_627_776;

/// The largest integer.
pub const LARGEST_INTEGER: u64 = 9_223_372_036_854_775_807;

/// The largest number of a site, a name, a node or a line.
pub const LARGEST_NUMBER: u64 = 4_294_967_295;
