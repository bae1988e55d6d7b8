//! The checks of a program's types.
//!
//! `check` accepts a sound program exactly if the list of checks finds no fault, and otherwise gives the first fault with its
//! rule and place. A `Checked` is a program that is sound and without a fault. The faults of a sound program are the same in
//! each *world* (which numbers are sites, and what each channel carries) that has its sites. A law says what the checks are
//! of the two processes that no source has, `open` and `lookup`.
//!
//! Contracts: `check`, `Checked::program`, `law_resolved`, `law_low_forms`.
#![tactic(auto)]

mod fail;
mod heads;
mod laws;
mod processes;
mod programs;

pub use fail::CheckFail;
pub use laws::{law_low_forms, law_resolved};
pub use programs::{Checked, check};
