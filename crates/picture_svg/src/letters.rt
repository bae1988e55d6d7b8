//! How wide words are.
//!
//! A picture loads no font, so these are bounds: no letter of the usual fonts without serifs is wider.

use super::shapes::{Form, Look, Shape};

/// How wide letters are, in hundredths of their size: those like i, most, those like A, and those like M.
const NARROW: u32 = 42;

const USUAL: u32 = 64;

const BROAD: u32 = 84;

const FULL: u32 = 100;

/// How wide what stands in place of a byte that is no letter is: `\xNN`.
const CODE: u32 = 234;

/// The sizes of letters of sentences, and of titles.
const SAID: u32 = 14;

const TITLE: u32 = 20;

/// How wide a letter is.
fn letter_width(letter: u8) -> u32 {
    match letter {
        b' ' | b'!' | b'\'' | b'(' | b')' | b',' | b'-' | b'.' | b'/' | b':' | b';' => NARROW,
        b'I' | b'[' | b'\\' | b']' | b'`' | b'f' | b'i' | b'j' | b'l' | b'r' | b't' | b'|' =>
            NARROW,
        b'%' | b'@' | b'M' | b'W' | b'm' => FULL,
        b'#' | b'&' | b'+' | b'<' | b'=' | b'>' | b'^' | b'w' | b'~' | b'A'..=b'Z' => BROAD,
        b' '..=b'~' => USUAL,
        _ => CODE,
    }
}

/// How wide words are at most in letters of a size.
pub(crate) fn words_width(words: &[u8], size: u32) -> u32 {
    let mut width = 0u32;
    for letter in words {
        width = width.saturating_add(letter_width(*letter));
    }
    width.saturating_mul(size) / 100 + 1
}

/// The size of the letters of what begins at its point and may be long.
fn size_of(look: Look) -> Option<u32> {
    match look {
        Look::Title => Some(TITLE),
        Look::Small | Look::Say => Some(SAID),
        _ => None,
    }
}

/// How far to the right a shape reaches, where it is such words.
fn reach_of(shape: &Shape) -> u32 {
    match (&shape.form, size_of(shape.look)) {
        (Form::Words { at, text }, Some(size)) => {
            at.x.saturating_add(words_width(text.as_slice(), size))
        }
        _ => 0,
    }
}

/// How far to the right the words of a picture reach.
pub(crate) fn words_reach(words: &[Shape]) -> u32 {
    let mut reach = 0u32;
    for shape in words {
        reach = reach.max(reach_of(shape));
    }
    reach
}
