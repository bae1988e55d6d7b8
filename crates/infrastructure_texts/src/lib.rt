//! The texts that the infrastructures write out, as tables: the daemon, and what main, a post, a creation and a migration become, with
//! caches and without.
//!
//! A table has the pieces of a text, each before the processes in it. That a table, filled in, is the text of its definition is a law
//! of its own, so that a wrong text is refused in a check that takes seconds. The crate writes nothing: text_filling fills the tables
//! in.
//!
//! Contracts: `law_central_tables`, `law_cached_tables`.
#![tactic(auto)]

mod laws;
mod notation;
mod tables;

pub use laws::{law_cached_tables, law_central_tables};
pub use notation::{Content, Names, Piece, Word};
pub use tables::{
    CACHED_CREATION, CACHED_DAEMON, CACHED_MAIN, CACHED_POST, CREATION, DAEMON, HERE, MAIN,
    MIGRATION, POST,
};
