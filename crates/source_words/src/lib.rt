//! A source as lines of words, each with its class: a keyword, a literal, a comment, the name of an agent.
//!
//! The words of the lines, with a line feed between two lines, are the bytes of the source (`source_of`): each byte stands in just
//! one word, in its order. A word also has the number of the process node whose words it is one of, as far as the node's own words
//! go: up to the `in`, the `=`, the `->` or the `then` behind which its parts stand. Of classes and nodes nothing is promised.
//!
//! Contracts: `lines_of` (`source_of`).
#![tactic(auto)]

mod classes;
mod course;
mod dyes;
mod lines;
mod word;

pub use lines::lines_of;
pub use word::{Class, Dye, Head, Line, Named, Word};
