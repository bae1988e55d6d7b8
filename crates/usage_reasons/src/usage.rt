//! The lines that tell why words are not taken.

use super::finding::{Fault, first_fault, mode_of, no_mode, word_at};
use super::mode::{Mode, Operands, choice_word};
use np_io::Word;
use np_syntax::{List, Memory, Text};
use source_places::{filled_by, shown_width, wrap};
use std::alloc::Global;

/// What a mode takes.
fn mode_words(alloc: Global, mode: Mode) -> Result<Text, Memory> {
    let operands: &[u8] = match mode.operands {
        Operands::Source => b"a source",
        Operands::SourceAndHistory => b"a source and a history",
        Operands::History => b"a history",
        Operands::Number => b"a number from 1 to 100",
    };
    let mut text = filled_by(alloc, b"`np %` takes #", mode.word, operands)?;
    let mut front: &[u8] = b", and ";
    for choice in mode.options {
        text.append(front)?;
        text.append(b"`")?;
        text.append(choice_word(*choice))?;
        text.append(b"`")?;
        front = b" ";
    }
    Ok(text)
}

/// The command line, and the blanks up to a word of it, or to behind the last one.
fn command_line(alloc: Global, words: &[Word], index: usize) -> Result<(Text, Text), Memory> {
    let mut line = List::from_slice(alloc, b"  | np")?;
    let mut under = List::from_slice(alloc, b"  |   ")?;
    for place in 0..words.len() {
        let word = word_at(words, place);
        line.append(b" ")?;
        line.append(word)?;
        if place < index {
            for _ in 0..shown_width(word).saturating_add(1) {
                under.add(b' ')?;
            }
        }
    }
    under.add(b' ')?;
    Ok((line, under))
}

/// What is told of a fault, where a mode takes these words.
fn fault_lines(
    alloc: Global,
    words: &[Word],
    fault: &Fault,
    takes: &Text,
) -> Result<List<Text>, Memory> {
    let (line, mut under) = command_line(alloc, words, fault.index)?;
    for _ in 0..shown_width(word_at(words, fault.index)).max(1) {
        under.add(b'^')?;
    }
    under.add(b' ')?;
    under.append(fault.label.as_slice())?;
    let mut lines = List::new(alloc);
    lines.add(line)?;
    lines.add(under)?;
    wrap(alloc, &mut lines, b"wanted:", fault.wanted.as_slice())?;
    let next = if fault.next.len() == 0 {
        takes
    } else {
        &fault.next
    };
    wrap(alloc, &mut lines, b"next:", next.as_slice())?;
    Ok(lines)
}

/// The lines that tell why np does not take words.
pub fn usage_lines(alloc: Global, words: &[Word]) -> Result<List<Text>, Memory> {
    let mode = mode_of(word_at(words, 0));
    let (found, takes) = match mode {
        Some(mode) => (first_fault(alloc, mode, words)?, mode_words(alloc, mode)?),
        None => (no_mode(alloc, words)?, List::new(alloc)),
    };
    match found {
        Some(fault) => fault_lines(alloc, words, &fault, &takes),
        None => Ok(List::new(alloc)),
    }
}
