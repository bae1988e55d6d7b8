//! The trees of sources, and the grammar: a relation between a list of tokens, a depth and a tree.
//!
//! `same_tree` is equality up to offsets. Expressions and processes keep their form on the heap, as those of np_syntax do. A
//! program has no more processes, and no more binders, than tokens.
//!
//! Contracts: `same_tree`.
#![tactic(auto)]

mod same;
mod tree;

pub use same::same_tree;
pub use tree::{Ident, RawExpr, RawExprForm, RawPat, RawPatForm, RawProc, RawProcForm, Tree};
