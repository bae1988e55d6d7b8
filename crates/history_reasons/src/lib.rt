//! Why a history is none of a run of a source: the field at fault, what was wanted there, and how to go on.
//!
//! A line that is no event's line fails at the first field that has not its form. An event that is not possible fails at the first
//! condition of its row of the table of reductions that does not hold where the events before it end (`first_unmet`), and the field
//! of that condition is marked. Something is told of each event at which events stop being a run, and of no other. A text is
//! made of the condition, the event and what stands in the configuration that is reached.
//!
//! Contracts: `not_a_run` (`IsUnmetIn`).
#![tactic(auto)]

mod absent;
mod acting;
mod field;
mod fields;
mod form_words;
mod layout;
mod moving;
mod names;
mod ours;
mod printed;
mod replayed;
mod telling;

pub use fields::syntax_reasons;
pub use layout::{Layout, layout_of};
pub use ours::{not_ours, past_budget};
pub use printed::no_line;
pub use replayed::not_a_run;
