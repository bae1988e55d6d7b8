//! Markup as text: elements with attributes and what stands in them.
//!
//! What comes from outside is written escaped (`escaped_byte`), so nothing of it is read as a tag or as the end of a value: all
//! that is written of any bytes is tame (`StaysTame`). An element is its opening tag, its content and its closing tag
//! (`element_text`), so each that opens closes. Its opening tag is written piece by piece: `open_tag`, its attributes, `close_tag`.
//! Tags and the names of attributes are enums, whose words are in the specs. A text is formed where it is elements with formed
//! texts in them, escaped bytes, and line feeds (`IsFormed`).
//!
//! Contracts: `open_tag`, `put_words_attribute` and `put_number_attribute` (`attribute_text`), `close_tag`, `close_single`,
//! `put_opening`, `put_closing`, `put_escaped`, `put_number`, `law_escaped` (`StaysTame`), `law_formed` (`IsFormed`).
#![tactic(auto)]

mod element;
mod escape;
mod laws;
mod words;

pub use element::{
    close_single, close_tag, close_value, open_tag, open_value, put_closing, put_number_attribute,
    put_opening, put_words_attribute,
};
pub use escape::{put_escaped, put_number};
pub use laws::{law_escaped, law_formed};
pub use words::{AttributeName, Tag};
