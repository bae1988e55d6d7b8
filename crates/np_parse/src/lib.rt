//! From tokens to a tree.
//!
//! `parse` gives the only tree that the grammar gives the tokens, or the shortest beginning of them with which no program
//! within the depth begins, and says whether a deeper program begins so. No recursion goes deeper than the depth.
//!
//! Contracts: `parse`.
#![tactic(auto)]

mod closing;
mod cursor;
mod expression;
mod fail;
mod flat;
mod head;
mod operator;
mod pattern;
mod process;
mod programs;
mod types;

pub use fail::ParseFail;
pub use programs::parse;
