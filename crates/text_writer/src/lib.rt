//! A text that is written piece by piece, whose want of memory is asked for at the end.
//!
//! What writes a text of many pieces puts one behind another and has nothing to answer. Where memory is wanting, nothing more is
//! written, and `finish` says so.
//!
//! Contracts: `TextWriter` (`Writes`).
#![tactic(auto)]

mod writer;

pub use writer::TextWriter;
