//! Histories as text, in two formats: written, and read back.
//!
//! The writers give the text of the events. `read_history` gives the only list of events of which a text is a history, or the
//! number of the first line that no history has there; each text is one or the other, and what was written is read back.
//! Whether the events are a run is not its business.
//!
//! Contracts: `write_in`, `write_history`, `write_history_1`, `write_high`, `read_history`, `law_fits`, `law_written`,
//! `law_one_reading`.
#![tactic(auto)]

mod events;
mod fail;
mod fields;
mod format;
mod laws;
mod read;
mod words;
mod write;

pub use fail::HistFail;
pub use format::Format;
pub use laws::{law_fits, law_one_reading, law_written};
pub use read::read_history;
pub use write::{write_high, write_history, write_history_1, write_in};
