//! From what is wanted to the picture of a run, or to its log.
//!
//! In a picture just the events of the level that is wanted stand, in their order: those of the low program, or those of the source
//! that are read off them, or both side by side, or those in a part of a level; and of a run by a seed, where only what the source
//! says is looked at, those of the source itself. They are those of the history that is named, or else of a run within the budget. In
//! a log just those of the history stand.
//!
//! Contracts: `picture` (`IsDrawn`), `log_of` (`IsShownLog`).
#![tactic(auto)]

mod levels;
mod logs;
mod parts;
mod pasts;
mod pictures;

pub use logs::log_of;
pub use pictures::picture;
