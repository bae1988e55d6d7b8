//! Subtyping, and the tests of a type's form.
//!
//! `sub` is the table of subtyping. It compares two types in one walk, which turns round below an output.
//!
//! Contracts: `sub`.
#![tactic(auto)]

mod forms;
mod subtyping;

pub use forms::{is_agent, is_bool, is_int, is_letter, is_places, is_site, is_str};
pub use subtyping::sub;
