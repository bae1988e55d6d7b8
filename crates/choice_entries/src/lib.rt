//! What stands in the list of all that can happen next, and which of it a number picks.
//!
//! The list is any that gives the entry at each place (`Entries`), so that no table is told of here.
//!
//! Contracts: `pick` (`pick`).
#![tactic(auto)]

mod entry;
mod picks;

pub use entry::Entry;
pub use picks::{Entries, pick};
