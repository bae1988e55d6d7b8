//! The marks under a line.

ghost use Rattle.std.specs.Prelude.{◌<◌, ◌^◌, length};

use super::place::{Place, line_at, place_at};
use super::reasons::Mark;
use super::window::{Char, Window, chars_of, width_between, window_of};
use itoa::Buffer;
use np_syntax::{List, Memory, Text};
use std::alloc::Global;
use text_writer::TextWriter;

/// A mark with its sign and the places at which it begins and ends.
#[derive(Clone, Copy)]
pub(super) struct Placed<'a> {
    pub sign: u8,
    pub mark: &'a Mark,
    pub begins: Place,
    pub ends: Place,
}

/// Where an offset stands, or the end of the text where it lies behind that.
fn place_within(bytes: &[u8], at: usize) -> Place
    requires { length bytes.now < 2 ^ 31 }
{
    place_at(bytes, at.min(bytes.len()))
}

/// A mark of a text with its places. The last byte of a range is where it ends.
pub(super) fn place_mark<'a>(bytes: &[u8], sign: u8, mark: &'a Mark) -> Placed<'a>
    requires { length bytes.now < 2 ^ 31 }
{
    let from = mark.range.from;
    let last = mark.range.to.saturating_sub(1).max(from);
    Placed {
        sign,
        mark,
        begins: place_within(bytes, from),
        ends: place_within(bytes, last),
    }
}

/// Writes blanks, or any other byte, so many times.
fn put_times(text: &mut TextWriter, byte: u8, times: usize) {
    for _ in 0..times {
        text.put_byte(byte);
    }
}

/// Writes what stands before the bar: a number, right-aligned, or nothing.
fn put_gutter(text: &mut TextWriter, number: &[u8], width: usize) {
    put_times(text, b' ', width.saturating_sub(number.len()));
    text.put(number);
    text.put(b" | ")
}

/// Writes a place in round brackets: behind ` (to ` where a range of several lines ends, and else before the label.
fn put_place(text: &mut TextWriter, front: &[u8], place: Place) {
    text.put(front);
    text.put(Buffer::new().format(place.line).as_bytes());
    text.put(b":");
    text.put(Buffer::new().format(place.column).as_bytes());
    text.put(b")")
}

/// Writes the label of a mark, and where its range ends if that is in a further line.
fn put_label(text: &mut TextWriter, placed: Placed<'_>) {
    let label = placed.mark.label.as_slice();
    if !label.is_empty() {
        text.put(b" ");
        text.put(label);
    }
    if placed.begins.line < placed.ends.line {
        put_place(text, b" (to ", placed.ends);
    }
}

/// Whether a mark begins outside of the part of a line that is shown.
fn is_outside(window: Window, at: usize) -> bool {
    at < window.from || window.to < at || window.behind && window.to == at
}

/// The line below a line with its mark.
fn mark_line(
    alloc: Global,
    chars: &[Char],
    window: Window,
    placed: Placed<'_>,
    width: usize,
) -> Result<Text, Memory> {
    let mut text = TextWriter::new(alloc);
    put_gutter(&mut text, b"", width);
    let from = placed.begins.at.saturating_sub(placed.begins.start);
    if is_outside(window, from) {
        put_place(&mut text, b"(", placed.begins);
    } else {
        let to = placed.mark.range.to.saturating_sub(placed.begins.start);
        let front = if window.before { 3 } else { 0 };
        let blanks = width_between(chars, window.from, from).saturating_add(front);
        put_times(&mut text, b' ', blanks);
        let signs = width_between(chars, from, to.min(window.to)).max(1);
        put_times(&mut text, placed.sign, signs);
    }
    put_label(&mut text, placed);
    text.finish()
}

/// The line itself, with its number, as far as it is shown.
fn numbered_line(
    alloc: Global,
    line: &[u8],
    window: Window,
    number: usize,
    width: usize,
) -> Result<Text, Memory> {
    let mut text = TextWriter::new(alloc);
    put_gutter(&mut text, Buffer::new().format(number).as_bytes(), width);
    if window.before {
        text.put(b"...");
    }
    text.put(line.get(window.from..window.to).unwrap_or(&[]));
    if window.behind {
        text.put(b"...");
    }
    text.finish()
}

/// Adds a line of a text and the lines of its marks, which are at least one. The line is cut for the one of them that leads.
pub(super) fn put_row<'x>(
    alloc: Global,
    lines: &mut List<Text>,
    bytes: &[u8],
    marks: &[Placed<'x>],
    width: usize,
) -> Result<(), Memory>
    requires { length bytes.now < 2 ^ 31 }
{
    let Some(first) = marks.first() else {
        return Ok(());
    };
    let lead = marks
        .iter()
        .find(|placed| placed.sign == b'^')
        .unwrap_or(first);
    let start = first.begins.start.min(bytes.len());
    let line = line_at(bytes, start);
    let chars = chars_of(alloc, line)?;
    let at = lead.begins.at.saturating_sub(start);
    let window = window_of(chars.as_slice(), line.len(), at);
    lines.add(numbered_line(alloc, line, window, first.begins.line, width)?)?;
    for placed in marks {
        lines.add(mark_line(alloc, chars.as_slice(), window, *placed, width)?)?;
    }
    Ok(())
}
