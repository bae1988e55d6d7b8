//! The source that np generates itself: a ring of agents that pass one token round.
//!
//! `generated` gives its text, for each number of agents from 1 to 100.
//!
//! Contracts: `generated`.
#![tactic(auto)]

mod source;

pub use source::{MOST_AGENTS, generated};
