//! The layout of the picture of a run: sites side by side, time downward.
//!
//! Each event has just one mark, by its number, in the column of its site and of who acts, and below the marks of the events
//! before it. Each arrow goes from a Send to a later Land of its packet, or from a Depart to a later Arrive of the agent, and that
//! of a Post to a column of the agent to which it goes. That each of these has an arrow is not promised, nor where an agent stays
//! from row to row.
//!
//! Contracts: `lay_out` (`IsLayout`), `lay_beside` (`IsBeside`), `part_of`, `is_told`, `MOST_STEPS`.
#![tactic(auto)]

mod arrows;
mod columns;
mod layout;
mod marks;
mod parts;
mod posts;
mod stays;
mod step;

pub use layout::{Arrow, Birth, Column, Layout, Mark, Post, Stay, lay_beside, lay_out};
pub use marks::{MOST_STEPS, TOP, is_told};
pub use parts::{Part, part_of};
pub use step::{Followed, Message, Step};
