//! The lines that tell reasons.

ghost use Rattle.std.specs.Prelude.{◌<◌, ◌^◌, length};

use super::filling::number_text;
use super::marking::{Placed, place_mark, put_row};
use super::reasons::{Mark, Reasons};
use super::wrapping::wrap;
use np_syntax::{List, Memory, Text};
use std::alloc::Global;

/// Whether a mark stands before another one: by where it begins, and then by where it ends.
fn is_before(one: &Mark, other: &Mark) -> bool {
    let (one, other) = (one.range, other.range);
    one.from < other.from || one.from == other.from && one.to < other.to
}

/// Adds the lines of a text that have one of two marks, and the marks.
fn put_two<'x>(
    alloc: Global,
    lines: &mut List<Text>,
    bytes: &[u8],
    first: Placed<'x>,
    second: Placed<'x>,
) -> Result<(), Memory>
    requires { length bytes.now < 2 ^ 31 }
{
    let width = number_text(alloc, second.begins.line as u64)?.len();
    if first.begins.line == second.begins.line {
        return put_row(alloc, lines, bytes, [first, second].as_slice(), width);
    }
    put_row(alloc, lines, bytes, [first].as_slice(), width)?;
    put_row(alloc, lines, bytes, [second].as_slice(), width)
}

/// Adds the lines of a text that are marked, and the marks.
fn put_marks(
    alloc: Global,
    lines: &mut List<Text>,
    bytes: &[u8],
    reasons: &Reasons,
) -> Result<(), Memory>
    requires { length bytes.now < 2 ^ 31 }
{
    let Some(refused) = &reasons.refused else {
        return Ok(());
    };
    let main = place_mark(bytes, b'^', refused);
    let Some(beside) = &reasons.beside else {
        let width = number_text(alloc, main.begins.line as u64)?.len();
        return put_row(alloc, lines, bytes, [main].as_slice(), width);
    };
    let aside = place_mark(bytes, b'-', beside);
    if is_before(beside, refused) {
        put_two(alloc, lines, bytes, aside, main)
    } else {
        put_two(alloc, lines, bytes, main, aside)
    }
}

/// The lines that tell reasons, of which the marks stand in a text.
pub fn lines_of(alloc: Global, bytes: &[u8], reasons: &Reasons) -> Result<List<Text>, Memory>
    requires { length bytes.now < 2 ^ 31 }
{
    let mut lines = List::new(alloc);
    put_marks(alloc, &mut lines, bytes, reasons)?;
    wrap(alloc, &mut lines, b"wanted:", reasons.wanted.as_slice())?;
    wrap(alloc, &mut lines, b"why:", reasons.why.as_slice())?;
    wrap(alloc, &mut lines, b"next:", reasons.next.as_slice())?;
    Ok(lines)
}
