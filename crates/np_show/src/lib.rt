//! The canonical text of a tree.
//!
//! `show` writes it. For every tree that the grammar gives a list of tokens, this text has exactly one list of tokens, and
//! that has the same tree up to offsets, at the same depth.
//!
//! Contracts: `show`.
#![tactic(auto)]

mod expressions;
mod patterns;
mod processes;
mod types;
mod written;

pub use expressions::{close_round, left, open_round, put_op, right, strength};
pub use types::put_type;
pub use written::show;
