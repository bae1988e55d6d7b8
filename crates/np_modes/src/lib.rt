//! What each mode does with the words and the texts that they name.
//!
//! `work` reads the texts that the words name and makes what their mode asks for, or gives a refusal with its cause. What a
//! call saw of its texts is a `Reading`. A new mode that reads other texts is a clause in `Does` and in `RefusesPlan`, and a
//! function.
//!
//! Contracts: `work` (`HasMade`, `Stands`).
#![tactic(auto)]

mod histories;
mod jobs;
mod reading;
mod resuming;

pub use jobs::work;
