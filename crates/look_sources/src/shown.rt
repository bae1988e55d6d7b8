//! What is written, once it is made.

use np_syntax::{End, Text};

/// A text, and how the run ended that it is of. A history ends at rest.
#[derive(Drop)]
pub struct Shown {
    pub text: Text,
    pub end: End,
}
