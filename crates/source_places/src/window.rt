//! Which part of a line is shown.

use super::showing::{front_len, front_width};
use np_syntax::{List, Memory};
use std::alloc::Global;

/// How many columns a line may have that is shown as a whole.
const WIDEST: usize = 100;

/// How many columns are shown before what is marked, where a line is cut.
const BEFORE: usize = 40;

/// How many columns are shown of a line that is cut.
const WITHIN: usize = 94;

/// A character of a line: how many bytes stand before it, and how many columns it is shown in.
#[derive(Clone, Copy)]
pub(super) struct Char {
    pub at: usize,
    pub width: usize,
}

/// The part of a line that is shown: from an offset of the line to another one. `cut` says whether something is left out before it
/// and behind it.
#[derive(Clone, Copy)]
pub(super) struct Window {
    pub from: usize,
    pub to: usize,
    pub before: bool,
    pub behind: bool,
}

/// The characters of a line.
pub(super) fn chars_of(alloc: Global, line: &[u8]) -> Result<List<Char>, Memory> {
    let mut chars = List::new(alloc);
    let mut at: usize = 0;
    for _ in line {
        let rest = line.get(at..).unwrap_or(&[]);
        if rest.is_empty() {
            return Ok(chars);
        }
        let width = front_width(rest);
        chars.add(Char { at, width })?;
        at = at.saturating_add(front_len(rest));
    }
    Ok(chars)
}

/// How many columns the characters of a part of a line are shown in.
pub(super) fn width_between(chars: &[Char], from: usize, to: usize) -> usize {
    let mut width: usize = 0;
    for c in chars {
        if from <= c.at && c.at < to {
            width = width.saturating_add(c.width);
        }
    }
    width
}

/// The offset of a character, or of the end of the line.
fn offset_of(chars: &[Char], index: usize, len: usize) -> usize {
    match chars.get(index) {
        Some(c) => c.at,
        None => len,
    }
}

/// The first of the characters before an index that fit before it.
fn first_shown(chars: &[Char], index: usize) -> usize {
    let mut first = index;
    let mut width: usize = 0;
    for back in 1..index.saturating_add(1) {
        let Some(c) = chars.get(index.saturating_sub(back)) else {
            return first;
        };
        width = width.saturating_add(c.width);
        if BEFORE < width {
            return first;
        }
        first = index.saturating_sub(back);
    }
    first
}

/// The index behind the last of the characters that fit behind the first one.
fn last_shown(chars: &[Char], first: usize) -> usize {
    let mut width: usize = 0;
    let mut last = first;
    for c in chars.get(first..).unwrap_or(&[]) {
        width = width.saturating_add(c.width);
        if WITHIN < width {
            return last;
        }
        last = last.saturating_add(1);
    }
    last
}

/// The part of a line that is shown where this is marked.
pub(super) fn window_of(chars: &[Char], len: usize, lead: usize) -> Window {
    if width_between(chars, 0, len) <= WIDEST {
        return Window {
            from: 0,
            to: len,
            before: false,
            behind: false,
        };
    }
    let index = chars.iter().take_while(|c| c.at < lead).count();
    let first = first_shown(chars, index);
    let last = last_shown(chars, first).max(index);
    Window {
        from: offset_of(chars, first, len),
        to: offset_of(chars, last, len),
        before: 0 < first,
        behind: last < chars.len(),
    }
}
