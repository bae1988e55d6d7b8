//! A crew that has made no event does those of a list again, and runs on.
//!
//! If it does them all, the merged histories at its end begin with them, and each later event has a greater stamp; it does
//! not only where they are no run that its sites make by themselves, within the budget.
//!
//! Contracts: `redone` (`IsToGoOn`).
#![tactic(auto)]

mod going_on;

pub use going_on::redone;
