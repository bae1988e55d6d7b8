//! Text in lines that end before a column.

use np_syntax::{List, Memory, Text};
use std::alloc::Global;

/// How many bytes a line may have.
const WIDEST: usize = 78;

/// Puts the word at the end of a line, or into the next one.
fn put_word(
    alloc: Global,
    lines: &mut List<Text>,
    line: &mut Text,
    word: &[u8],
    empty: bool,
) -> Result<(), Memory> {
    let len = line.len().saturating_add(1).saturating_add(word.len());
    if WIDEST < len && !empty {
        lines.add(line.copy(alloc)?)?;
        *line = List::from_slice(alloc, b" ")?;
    }
    line.add(b' ')?;
    line.append(word)
}

/// Adds the lines of a text behind a head. What stands in backquotes is not broken.
pub fn wrap(alloc: Global, lines: &mut List<Text>, head: &[u8], text: &[u8]) -> Result<(), Memory> {
    if text.is_empty() {
        return Ok(());
    }
    let mut line = List::from_slice(alloc, head)?;
    let mut word = List::new(alloc);
    let mut quoted = false;
    let mut empty = true;
    for byte in text {
        if *byte == b' ' && !quoted {
            put_word(alloc, lines, &mut line, word.as_slice(), empty)?;
            empty = false;
            word = List::new(alloc);
        } else {
            quoted = quoted != (*byte == b'`');
            word.add(*byte)?;
        }
    }
    put_word(alloc, lines, &mut line, word.as_slice(), empty)?;
    lines.add(line)
}
