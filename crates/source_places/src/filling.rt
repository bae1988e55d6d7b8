//! Words with gaps, and numbers as people read them.

use itoa::Buffer;
use np_syntax::{List, Memory, Text};
use std::alloc::Global;
use text_writer::TextWriter;

/// Words in which the first text stands for each `%`, and the second for each `#`.
pub fn filled_by(alloc: Global, words: &[u8], first: &[u8], second: &[u8]) -> Result<Text, Memory> {
    let mut text = TextWriter::new(alloc);
    for byte in words {
        match *byte {
            b'%' => text.put(first),
            b'#' => text.put(second),
            other => text.put_byte(other),
        }
    }
    text.finish()
}

/// Words in which a text stands for each `%`.
pub fn filled(alloc: Global, words: &[u8], first: &[u8]) -> Result<Text, Memory> {
    filled_by(alloc, words, first, b"#")
}

/// A number in digits.
pub fn number_text(alloc: Global, number: u64) -> Result<Text, Memory> {
    List::from_slice(alloc, Buffer::new().format(number).as_bytes())
}

/// A number in digits, with a comma before each three of the last ones.
pub fn counted(alloc: Global, number: u64) -> Result<Text, Memory> {
    let mut buffer = Buffer::new();
    let digits = buffer.format(number).as_bytes();
    let mut left = digits.len();
    let mut text = TextWriter::new(alloc);
    for digit in digits {
        if left % 3 == 0 && left < digits.len() {
            text.put_byte(b',');
        }
        text.put_byte(*digit);
        left = left.saturating_sub(1);
    }
    text.finish()
}
