//! Why the tokens of a source are no program's: where they stop, what was wanted there, and how to go on.
//!
//! The mark holds np's offset (`MarksIn`), but for the end of the source, which is marked behind the last token. What to do next is
//! a table of what stands there, what was wanted and which forms are open (`ROWS`).
//!
//! Contracts: `reasons_of_syntax` (`MarksIn`), `reasons_of_depth` (`Holds`).
#![tactic(auto)]

mod advice;
mod deep;
mod further_rows;
mod row;
mod rows;
mod syntax;
mod view;

pub use deep::reasons_of_depth;
pub use syntax::reasons_of_syntax;
