/// How many process nodes main and the daemon of a low program may have together, where it is to be a code.
pub const MOST_CODE_NODES: u64 = 65_536;
