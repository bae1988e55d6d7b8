//! From what is wanted to the page of a run: one HTML file with the source, what was printed, the pictures of both levels, and a
//! table of the events of each.
//!
//! Each event has just one row, in the order of the run, up to the most rows that a table has; and the picture of a level is that of
//! its first events. The text is the page's text and is formed, so that no byte of a source stands in it unescaped.
//!
//! Contracts: `page` (`IsShownPage`).
#![tactic(auto)]

mod codes;
mod drafts;
mod heads;
mod pages;
mod rows;
mod sides;

pub use pages::page;
