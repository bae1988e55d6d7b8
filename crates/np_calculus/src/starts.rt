//! The numbers of the agents that a program starts with, and of the marks of their first atoms.

/// The number of the name of main's agent.
pub const MAIN: u32 = 0;

/// That of the daemon's agent.
pub const DAEMON: u32 = 1;

/// The number of the mark of main's first atom.
pub const MAIN_MARK: u32 = 11;

/// That of the daemon's first atom.
pub const DAEMON_MARK: u32 = 12;
