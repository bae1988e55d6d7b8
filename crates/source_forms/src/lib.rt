//! The forms of a source: the kinds of its tokens, which forms are open where its tokens stop being those of a program, and which
//! tokens an expression, a pattern or a type is written with.
//!
//! `reading_of` goes through tokens with a stack of what is still to come, by a table of the forms of the grammar. A `Span` is the
//! first and the last token of a part.
//!
//! Contracts: `kind_of`, `kind_text`.
#![tactic(auto)]

mod forms;
mod kind;
mod reading;
mod span;
mod symbol;

pub use forms::{Form, form_words, is_process};
pub use kind::{KINDS, Kind, kind_of, kind_text};
pub use reading::{Open, Reading, reading_of};
pub use span::{
    Span, expr_span, index_at, pattern_span, range_of, sign_behind, token_text, type_span,
};
pub use symbol::{begins_pattern, begins_type, begins_value, begun_process};
