//! Files of worked examples: from their text to examples, and the changes of a history that an example may ask for.
//!
//! `examples_of` reads the lines of a text one after another, each as the format says (`Says`), or gives the first line that
//! cannot be read and its number; nothing is said of what a file holds that a line names. The changes are lists: an event
//! left out, moved, or exchanged with another; the next event of an actor that is unlike; where an arrival comes too early.
//!
//! Contracts: `examples_of` (`AreRead`), `add_piece` (`piece_of`), `without`, `moved`, `exchanged`, `next_unlike`,
//! `early_place`, `between`.
#![tactic(auto)]

mod change;
mod example;
mod fail;
mod form;
mod key;
mod line;
mod number;
mod pieces;
mod reader;

pub use change::{
    Change, between, early_place, exchanged, moved, next_unlike, sent_place, without,
};
pub use example::{Devices, Example, NamedText, Outcome};
pub use fail::ExampleFail;
pub use reader::examples_of;
