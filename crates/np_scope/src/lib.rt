//! From names to numbers: programs.
//!
//! `resolve` gives the program of a tree, in which each use has the number of its innermost binder, or the first place in
//! reading order where a name is refused. The program is *sound* (`IsSound`): each use is in the scope of its binder, each
//! binder is bound once, and its values and types are those that a source can have. Nodes and binders are numbered in reading
//! order (`IsNumbered`).
//!
//! Contracts: `resolve`.
#![tactic(auto)]

mod expressions;
mod fail;
mod flat;
mod numbers;
mod patterns;
mod processes;
mod programs;
mod resolver;
mod scope;
mod sites;

pub use fail::ScopeFail;
pub use programs::resolve;
