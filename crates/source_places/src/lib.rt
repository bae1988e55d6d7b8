//! Places in a source or a history, and the text that tells what stands there.
//!
//! A place is a line and a column, counted from 1. A column is a character: a well-formed sequence of UTF-8, or else one byte
//! (`column_in`). Characters are shown so that no control and no turning character reaches a terminal (`shown`). `Reasons` are
//! what is told of a place: at most two marks with labels, what was wanted, why, and how to go on. They are laid out in lines,
//! and what is written of them is those lines as they are shown (`shown_lines`).
//!
//! Contracts: `place_at`, `put_shown`, `put_lines`, `marked` (`Holds`), `offset_of_line`.
#![tactic(auto)]

mod filling;
mod laying;
mod marking;
mod place;
mod reasons;
mod showing;
mod window;
mod wrapping;

pub use filling::{counted, filled, filled_by, number_text};
pub use laying::lines_of;
pub use place::{Place, line_at, offset_of_line, place_at};
pub use reasons::{Mark, Range, Reasons, marked, without_marks};
pub use showing::{front_len, put_lines, put_shown, shown_width};
pub use wrapping::wrap;
