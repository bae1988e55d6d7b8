//! Fills in the tables of the infrastructures' texts: the daemon, and what the translation writes for main, a post, a creation and a
//! migration, with caches and without.
//!
//! One function reads any table (`fill`): it gives the process that the table means, whatever the pieces are. So each text is what its
//! definition in infrastructure_texts says, by that crate's laws. It knows no source.
//!
//! Contracts: `fill`, and what is called for each text, as `daemon` and `migrate_text`.
#![tactic(auto)]

mod cached_texts;
mod filler;
mod filling;
mod forms;
mod texts;
mod words;
mod writer;

pub use cached_texts::{cached_agent_text, cached_daemon, cached_main_text, cached_post_text};
pub use filler::Filler;
pub use texts::{Made, daemon, migrate_text};
pub use words::{WrittenExpr, expression};
pub use writer::{Writer, Written};
