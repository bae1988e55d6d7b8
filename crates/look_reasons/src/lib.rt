//! What `np_look why` tells: the refusal of a source, of a history of it, or of words of np; or what a word names.
//!
//! The refusals are those of np's own functions, in the order of np. It fails only for want of memory, and where a file cannot be
//! read (`IsUnread`). Of a history it notes that it is a run with the other infrastructure (`IsRunWith`), and that what stands before
//! it is not what its events print.
//!
//! Contracts: `reason_of`, `reason_of_file`, `reason_of_history`, `reason_of_words` (`IsUnread`).
#![tactic(auto)]

mod files;
mod histories;
mod naming;
mod notes;
mod sources;
mod words;

pub use files::{reason_of, reason_of_file, reason_of_history};
pub use histories::{History, Purpose};
pub use naming::{Subject, explained, named};
pub use words::reason_of_words;
