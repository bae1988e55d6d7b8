//! Why np does not take words: the first word from the left that the table of the modes does not take, and what it takes there.
//!
//! Contracts: none beyond that each call meets its conditions.
#![tactic(auto)]

mod finding;
mod mode;
mod usage;

pub use usage::usage_lines;
