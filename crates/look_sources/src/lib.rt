//! What the modes of np_look share: a source is read and checked, a history is read or a run is made, and its steps are followed.
//!
//! `lowered` is the low program of a source by an infrastructure, `lifted_by` what is read off the events of its sites, `run_of` the
//! run that is looked at, `followed_low` and `followed_high` its steps at each level, and `binders_of` how the source names the agents
//! and the channels that it makes.
//!
//! Contracts: `read_text`, `lowered` (`low_by`, `RunsWell`), `lifted_by` (`lift_by`), `twins_by` (`AreTwins`), `history_of` (`IsFound`),
//! `run_of` (`IsLookedAt`), `followed_low`, `followed_high`, `followed_source`, `binders_of` (`AreNamed`).
#![tactic(auto)]

mod names;
mod programs;
mod reading;
mod runs;
mod shown;
mod steps;

pub use names::binders_of;
pub use programs::{lifted_by, lowered, twins_by};
pub use reading::{LONGEST_HISTORY, read_text, source_of};
pub use runs::{Run, history_of, run_of};
pub use shown::Shown;
pub use steps::{followed_high, followed_low, followed_source, of_replay};
