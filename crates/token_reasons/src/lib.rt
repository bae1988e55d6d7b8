//! Why a source has no tokens, and why a name in it stands for nothing: what is marked, what was wanted and how to go on.
//!
//! Each of them marks what is refused, and the range that is marked holds np's offset (`MarksAt`). What is said is a table of what
//! stands there.
//!
//! Contracts: `char_reasons`, `number_reasons`, `string_reasons`, `unbound_reasons`, `twice_reasons`, `many_reasons`, `home_reasons`
//! (`MarksAt`).
#![tactic(auto)]

mod chars;
mod names;
mod strings;

pub use chars::{char_reasons, number_reasons};
pub use names::{Source, home_reasons, many_reasons, twice_reasons, unbound_reasons};
pub use strings::string_reasons;
