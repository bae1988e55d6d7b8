//! Runs by seed and what is written of them, their outputs counted, and high texts that are followed from the start of their source.
//!
//! All that np promises of a run on sites holds of a run of the low level by seed.
//!
//! Contracts: `run_shown` (`IsRunShown`), `runs_shown`, `followed` (`Follows`, `Stops`).
#![tactic(auto)]

mod follow_work;
mod run_work;
mod runs_work;

pub use follow_work::{followed, followed_shown};
pub use run_work::run_shown;
pub use runs_work::{Progress, runs_shown};
