//! Bytes at which no token begins, and numbers that are too great.

ghost use Rattle.std.specs.Prelude.{IfOk};
ghost use Rattle.token_reasons.specs.Marks.{MarksAt};

use np_syntax::{List, Memory, Text};
use source_places::{Range, Reasons, filled, front_len, marked, number_text};
use std::alloc::Global;

const IN_QUOTES: &[u8] = b"strings stand in double quotes: `\"text\"`";

const IN_BRACKETS: &[u8] = b"processes are grouped by round brackets, tuples by square ones";

const COMMENTS: &[u8] = b"comments begin with `--`";

const NO_DIVISION: &[u8] = b"there is no division";

/// How to go on at a byte.
fn advice_for(byte: u8, next: Option<u8>) -> &'static [u8] {
    match byte {
        b'#' => COMMENTS,
        b'/' if matches!(next, Some(b'/' | b'*')) => COMMENTS,
        b'/' | b'%' => NO_DIVISION,
        b'\'' | b'`' => IN_QUOTES,
        b',' => b"components stand side by side without commas: `[x y]`",
        b'.' => b"nothing is written with a point; behind an input stands `->`",
        b'{' | b'}' => IN_BRACKETS,
        b'&' => b"there is no `and`: write one `if` in the other",
        b'\\' => b"a backslash stands in strings alone",
        b'$' => b"a name begins with a letter",
        b'~' => b"there is no not: change the two branches",
        128..=255 => b"letters beyond ASCII stand in strings and comments alone",
        0..=31 => b"leave it out",
        _ => b"leave it out; in strings and comments it may stand",
    }
}

fn is_in_name(byte: u8) -> bool {
    byte.is_ascii_alphanumeric() || byte == b'_' || byte == b'\''
}

/// Reasons with one mark, from the offset on.
pub(super) fn told(
    alloc: Global,
    at: usize,
    len: usize,
    label: Text,
    wanted: &[u8],
    next: &[u8],
) -> Result<Reasons, Memory>
    ensures { IfOk result (MarksAt at) }
{
    let found = Range {
        from: at,
        to: at.saturating_add(len),
    };
    let wanted = List::from_slice(alloc, wanted)?;
    let next = List::from_slice(alloc, next)?;
    Ok(Reasons {
        refused: Some(marked(found, at, label)),
        beside: None,
        wanted,
        why: List::new(alloc),
        next,
    })
}

/// What is told of a name that is too long.
fn name_reasons(alloc: Global, at: usize, rest: &[u8]) -> Result<Reasons, Memory>
    ensures { IfOk result (MarksAt at) }
{
    let len = rest.iter().take_while(|byte| is_in_name(**byte)).count();
    let digits = number_text(alloc, len as u64)?;
    let label = filled(alloc, b"a name of % bytes", digits.as_slice())?;
    told(
        alloc,
        at,
        len,
        label,
        b"a name of at most 64 bytes",
        b"shorten the name",
    )
}

/// What is told of a byte at which no token begins.
pub fn char_reasons(alloc: Global, bytes: &[u8], at: usize) -> Result<Reasons, Memory>
    ensures { IfOk result (MarksAt at) }
{
    let rest = bytes.get(at..).unwrap_or(&[]);
    let byte = rest.first().copied().unwrap_or(0);
    if byte.is_ascii_alphabetic() {
        return name_reasons(alloc, at, rest);
    }
    let label = List::from_slice(alloc, b"begins no token")?;
    let next = advice_for(byte, rest.get(1).copied());
    told(alloc, at, front_len(rest), label, b"", next)
}

/// What is told of a number that is too great.
pub fn number_reasons(alloc: Global, bytes: &[u8], at: usize) -> Result<Reasons, Memory>
    ensures { IfOk result (MarksAt at) }
{
    let rest = bytes.get(at..).unwrap_or(&[]);
    let len = rest.iter().take_while(|byte| byte.is_ascii_digit()).count();
    let digits = number_text(alloc, len as u64)?;
    let label = filled(alloc, b"% digits", digits.as_slice())?;
    let wanted = b"a number of at most 9223372036854775807";
    let next = b"write a smaller number, or carry the digits in a string";
    told(alloc, at, len, label, wanted, next)
}
