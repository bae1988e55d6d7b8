//! The picture of a run as SVG: its shapes as data, laid out by run_pictures, and their text.
//!
//! The text is markup, one element in which those of a drawing stand. In the drawing each event stands just once, in the order
//! of the run, where its mark is, and each arrow runs from the mark of its one event to that of the other, or of a post to the
//! column of who gets it. Of two pictures side by side, each event of the source stands as far down as its twin. An agent has its
//! hue and its name by its number; nothing is promised of the sentences beside the marks.
//!
//! Contracts: `picture_text` (`IsPicture`, `IsDrawn`), `both_text` (`IsPictureOfBoth`), `put_hue`, `sayings_of`.
#![tactic(auto)]

mod cast;
mod drawing;
mod elements;
mod frame;
mod ground;
mod heads;
mod letters;
mod picture;
mod saying;
mod shapes;
mod style;
mod svg;
mod telling;
mod values;

pub use cast::Binder;
pub use elements::put_hue;
pub use picture::{HIGH_UNIT, LOW_UNIT, both_text, picture_text};
pub use saying::{Saying, sayings_of};
pub use shapes::Hue;
pub use style::STYLE;
