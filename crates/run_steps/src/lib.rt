//! The steps of a run: its events, with what the run tells of each, and the texts of what is printed.
//!
//! Events that are a run from the start of a program have a step each, in their order: the event, who acts in it, whether that
//! agent is at the site of the event, to whom goes what it sends, and the message that goes or comes, as the configurations before
//! and after it say. Else the refusal is out of memory, or the index at which the events stop being a run.
//!
//! Contracts: `follow`, `follow_high` (`IsFollowed`).
#![tactic(auto)]

mod following;
mod messages;

pub use following::{follow, follow_high};
