//! The first word that a mode does not take.

use super::mode::{Choice, MODES, Mode, Operands, choice_word, has_value, operand_words};
use np_io::Word;
use np_syntax::{LARGEST_BUDGET, List, Memory, Text};
use source_places::filled;
use std::alloc::Global;

/// What is at fault: a word by its index, or the place behind the last one; how it is told, and what was wanted there. `next` is how to
/// go on, where it is not what the mode takes.
#[derive(Drop)]
pub(super) struct Fault {
    pub index: usize,
    pub label: Text,
    pub wanted: Text,
    pub next: Text,
}

/// The greatest number of a line, and how many digits it may have.
const LAST_LINE: u64 = 6_400_000;

/// How many agents a generated source may have.
const MOST_AGENTS: u64 = 100;

/// The bytes of a word.
pub(super) fn word_at(words: &[Word], index: usize) -> &[u8] {
    match words.get(index) {
        Some(word) => word.text().as_bytes(),
        None => &[],
    }
}

/// The mode of a word.
pub(super) fn mode_of(word: &[u8]) -> Option<Mode> {
    MODES.iter().copied().find(|mode| mode.word == word)
}

/// The front of a word up to its first `=`, and what stands behind that.
fn parted(word: &[u8]) -> (&[u8], Option<&[u8]>) {
    let len = word.iter().take_while(|byte| **byte != b'=').count();
    let front = word.get(..len).unwrap_or(word);
    (front, word.get(len.saturating_add(1)..))
}

/// Whether a word is that of an option.
fn is_option(word: &[u8]) -> bool {
    word.len() > 2 && word.first() == Some(&b'-') && word.get(1) == Some(&b'-')
}

/// Whether a word is a number of so many digits at most, from 1 to the greatest.
fn is_number(word: &[u8], digits: usize, greatest: u64) -> bool {
    let mut value: u64 = 0;
    for byte in word {
        if !byte.is_ascii_digit() {
            return false;
        }
        value = value
            .saturating_mul(10)
            .saturating_add(u64::from(byte.saturating_sub(b'0')));
    }
    !word.is_empty() && word.len() <= digits && 1 <= value && value <= greatest
}

/// Whether an option takes a value.
fn takes(choice: Choice, value: &[u8]) -> bool {
    match choice {
        Choice::Budget => is_number(value, 6, u64::from(LARGEST_BUDGET)),
        Choice::Line => is_number(value, 7, LAST_LINE),
        Choice::Links => matches!(value, b"tray" | b"rings" | b"inbox"),
        Choice::Infra => matches!(value, b"central" | b"cache"),
        _ => true,
    }
}

/// How a value is told that an option does not take, what was wanted, and how to go on.
fn value_words(choice: Choice) -> (&'static [u8], &'static [u8], &'static [u8]) {
    match choice {
        Choice::Budget => (
            b"no such number",
            b"a number from 1 to 200,000",
            b"without `--budget` it is 10,000",
        ),
        Choice::Line => (
            b"no such number",
            b"a number from 1 to 6,400,000",
            b"without `--line` it is 1",
        ),
        Choice::Links => (b"no such kind", b"`tray` or `rings` or `inbox`", b""),
        _ => (b"no such kind", b"`central` or `cache`", b""),
    }
}

/// A fault with these words.
fn faulty(
    alloc: Global,
    index: usize,
    label: &[u8],
    wanted: &[u8],
    next: &[u8],
) -> Result<Option<Fault>, Memory> {
    let label = List::from_slice(alloc, label)?;
    let wanted = List::from_slice(alloc, wanted)?;
    let next = List::from_slice(alloc, next)?;
    Ok(Some(Fault {
        index,
        label,
        wanted,
        next,
    }))
}

/// The option of a mode that a word names.
fn choice_of(mode: Mode, word: &[u8]) -> Option<Choice> {
    mode.options
        .iter()
        .copied()
        .find(|choice| choice_word(*choice) == word)
}

/// What is at fault with an option, which is the word of an index.
fn wrong_option(
    alloc: Global,
    mode: Mode,
    words: &[Word],
    index: usize,
) -> Result<Option<Fault>, Memory> {
    let (front, value) = parted(word_at(words, index));
    let Some(choice) = choice_of(mode, front) else {
        let label = filled(alloc, b"not taken by %", mode.word)?;
        return faulty(
            alloc,
            index,
            label.as_slice(),
            b"an option of the mode",
            b"",
        );
    };
    for earlier in 1..index {
        if parted(word_at(words, earlier)).0 == front {
            return faulty(alloc, index, b"a second time", b"each option once", b"");
        }
    }
    if !has_value(choice) {
        return Ok(None);
    }
    let behind = index.saturating_add(1);
    let (place, value) = match value {
        Some(value) => (index, value),
        None if words.len() <= behind => {
            let wanted = filled(alloc, b"a value of `%`", front)?;
            return faulty(alloc, behind, b"no word", wanted.as_slice(), b"");
        }
        None => (behind, word_at(words, behind)),
    };
    if takes(choice, value) {
        return Ok(None);
    }
    let (label, wanted, next) = value_words(choice);
    faulty(alloc, place, label, wanted, next)
}

/// What is at fault with an operand, which is the word of an index and stands behind so many others.
fn wrong_operand(
    alloc: Global,
    mode: Mode,
    words: &[Word],
    index: usize,
    before: usize,
) -> Result<Option<Fault>, Memory> {
    if operand_words(mode.operands, before).is_none() {
        let wanted = b"an option, or no further word";
        return faulty(alloc, index, b"one word too many", wanted, b"");
    }
    if mode.operands == Operands::Number && !is_number(word_at(words, index), 6, MOST_AGENTS) {
        return faulty(
            alloc,
            index,
            b"no such number",
            b"a number from 1 to 100",
            b"",
        );
    }
    Ok(None)
}

/// Whether a value stands in the word behind that of an option.
fn has_value_behind(mode: Mode, word: &[u8]) -> bool {
    let (front, value) = parted(word);
    match choice_of(mode, front) {
        Some(choice) => has_value(choice) && value.is_none(),
        None => false,
    }
}

/// What is at fault at the end: an operand is missing, or `--one` stands alone.
fn wrong_end(
    alloc: Global,
    mode: Mode,
    words: &[Word],
    operands: usize,
) -> Result<Option<Fault>, Memory> {
    if let Some(wanted) = operand_words(mode.operands, operands) {
        return faulty(alloc, words.len(), b"no word", wanted, b"");
    }
    let index = words
        .iter()
        .take_while(|word| word.text().as_bytes() != b"--one".as_slice())
        .count();
    let wanted: &[u8] = if mode.word == b"run".as_slice() {
        b"`--one` beside `--high`"
    } else {
        b"`--one` beside `--history`"
    };
    faulty(alloc, index, b"`--one` alone", wanted, b"")
}

/// The first word, from the left, that a mode does not take.
pub(super) fn first_fault(
    alloc: Global,
    mode: Mode,
    words: &[Word],
) -> Result<Option<Fault>, Memory> {
    let mut operands: usize = 0;
    let mut value = false;
    for index in 1..words.len() {
        let word = word_at(words, index);
        if value {
            value = false;
        } else if is_option(word) {
            if let Some(found) = wrong_option(alloc, mode, words, index)? {
                return Ok(Some(found));
            }
            value = has_value_behind(mode, word);
        } else {
            if let Some(found) = wrong_operand(alloc, mode, words, index, operands)? {
                return Ok(Some(found));
            }
            operands = operands.saturating_add(1);
        }
    }
    wrong_end(alloc, mode, words, operands)
}

/// What is at fault with the word of the mode.
pub(super) fn no_mode(alloc: Global, words: &[Word]) -> Result<Option<Fault>, Memory> {
    let (label, next): (&[u8], &[u8]) = if words.is_empty() {
        (b"no word", b"the least call is `np run FILE`")
    } else {
        (
            b"no mode",
            b"the mode is the first word, the file the second",
        )
    };
    let mut wanted = List::new(alloc);
    for mode in MODES.iter() {
        let front: &[u8] = if wanted.len() == 0 {
            b"a mode: "
        } else {
            b", "
        };
        wanted.append(front)?;
        wanted.append(mode.word)?;
    }
    faulty(alloc, 0, label, wanted.as_slice(), next)
}
