//! Strings and their escapes.

ghost use Rattle.std.specs.Prelude.{◌≡◌, IfOk};
ghost use Rattle.np_lex.specs.Strings as strings;

use super::token::What;
use np_syntax::{LONGEST_STRING, List, Memory};
use std::alloc::Global;

/// What a byte is within the quotes of a string.
#[derive(Clone, Copy)]
pub enum Part {
    Close,
    Backslash,
    /// A byte of the text.
    Byte(u8),
    Wrong,
}

/// What the byte is, behind a backslash or not.
fn part_of(escaped: bool, byte: u8) -> Part
    ensures { result ≡ strings.part_of escaped byte }
{
    match byte {
        b'n' if escaped => Part::Byte(b'\n'),
        b'"' | b'\\' if escaped => Part::Byte(byte),
        _ if escaped => Part::Wrong,
        b'"' => Part::Close,
        b'\\' => Part::Backslash,
        _ if byte >= 32 => Part::Byte(byte),
        _ => Part::Wrong,
    }
}

/// The string whose opening quote stands before these bytes. The length counts both quotes.
#[tactic(auto, unfolding(crate::specs::Strings::string))]
pub fn string(alloc: Global, rest: &[u8]) -> Result<Option<(usize, What)>, Memory>
    ensures { IfOk result (λ first. first ≡ strings.string rest.now) }
{
    let mut text = List::new(alloc);
    let mut len = 1;
    let mut escaped = false;
    'bytes: for byte in rest {
        len += 1;
        match part_of(escaped, *byte) {
            Part::Close => return Ok(Some((len, What::Str(text)))),
            Part::Backslash => escaped = true,
            Part::Byte(part) => {
                if text.len() == LONGEST_STRING {
                    return Ok(None);
                }
                text.add(part)?;
                escaped = false;
            }
            Part::Wrong => return Ok(None),
        }
    }
    Ok(None)
}
