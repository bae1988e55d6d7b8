//! From the bytes of a source to its checked program, or to the first refusal; the refusals with their lines and statuses;
//! and the texts of runs.
//!
//! `checked_source` gives the program of the bytes, without a fault of types, or the refusal with its cause; no source is
//! both accepted and refused, and none is refused in two ways. `Stage` says how far a source is read. `line` and `status` are
//! the tables of refusals. `report`, `replay_report`, `past_report` and `load_report` are the texts of docs/COMMANDS.md; the
//! sum is that over the integers, of which 64 bits are left.
//!
//! Contracts: `tokens_of`, `tree_of`, `checked_source` (`IsWellTyped`, `Faulty`), `line`, `status`, `report`,
//! `replay_report`, `past_report`, `load_report`.
#![tactic(auto)]

mod reading;
mod refusal;
mod reporting;
mod statuses;

pub use reading::{checked_source, tokens_of, tree_of};
pub use refusal::{Refusal, line, status};
pub use reporting::{load_report, past_report, replay_report, report};
pub use statuses::{
    BAD_HISTORY, BAD_SOURCE, BAD_USAGE, BUDGET_SPENT, DONE, NO_MEMORY, READ_FAILED, WRITE_FAILED,
};
