//! Type safety. Laws only.
//!
//! Each event of all seventeen kinds keeps a configuration typed, and what is typed meets no value of a wrong type. So a
//! program that `check` accepts is typed after each prefix of each of its runs, and can run serially; and so is a low program
//! whose two processes have no fault under the types of the infrastructure's channels.
//!
//! Contracts: `law_typed`, `law_well_typed`, `law_runs_well`, `law_low_well_typed`.
#![tactic(auto)]

mod laws;

pub use laws::{law_low_well_typed, law_runs_well, law_typed, law_well_typed};
