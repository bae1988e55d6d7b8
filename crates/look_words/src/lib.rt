//! The words of np_look, read by clap: what is to be shown, of which source, and how.
//!
//! `asked_by` answers what the words ask for, or what clap has to say of them: its help, its version, or a fault of usage. Words
//! behind `why --` are np's, and are not looked at here. A budget is at most np's largest.
//!
//! Contracts: `asked_by` (`IsWanted`).
#![tactic(auto)]

mod follow_words;
mod modes;
mod page_words;
mod part_words;
mod run_words;
mod why_words;
mod words;

pub use follow_words::Following;
pub use page_words::PageWanted;
pub use part_words::{Focus, Stretch};
pub use run_words::{Several, Single, Way};
pub use words::{Asked, Level, Question, View, Wanted, asked_by};
