//! Where a byte stands in a text.

ghost use Rattle.std.specs.Prelude.{◌≡◌, ◌≤◌, ◌<◌, ◌+◌, ◌^◌, length};
ghost use Rattle.std.specs.List.{prefix_len};
ghost use Rattle.source_places.specs.Places as spec;

use super::showing::{behind_front, front_len};

/// Where a byte stands: how many bytes stand before it, and before its line, and its line and column, counted from 1.
#[derive(Clone, Copy)]
pub struct Place {
    pub at: usize,
    pub start: usize,
    pub line: usize,
    pub column: usize,
}

/// Where a line begins: its offset and its number.
#[derive(Clone, Copy)]
struct Row {
    start: usize,
    line: usize,
}

const FIRST: Row = Row { start: 0, line: 1 };

/// Behind a byte that stands at an offset.
fn behind(row: Row, at: usize, byte: u8) -> Row
    requires at { at < 2 ^ 32 }
    requires line { row.line < 2 ^ 32 }
    ensures { result ≡ spec.behind row at byte }
{
    if byte == b'\n' {
        return Row {
            start: at + 1,
            line: row.line + 1,
        };
    }
    row
}

/// The line in which the byte of an offset stands.
fn row_at(bytes: &[u8], at: usize) -> Row
    requires within { at ≤ length bytes.now }
    requires short { length bytes.now < 2 ^ 31 }
    ensures is { result ≡ spec.row_at bytes.now at }
    ensures start { result.start ≤ at }
{
    let (front, _) = bytes.split_at(at);
    let mut row = FIRST;
    let mut seen: usize = 0;
    for byte in front {
        row = behind(row, seen, *byte);
        seen = seen.saturating_add(1);
    }
    row
}

/// How many characters of so many bytes begin before the byte that stands behind so many others: one or none.
fn begins(before: usize, len: usize) -> usize
    ensures { result ≡ spec.begins before len }
{
    if 0 < before && 0 < len { 1 } else { 0 }
}

/// The column of the byte that stands behind so many others of its line: how many characters begin before it, and one.
fn column_in(line: &[u8], before: usize) -> usize
    requires { length line.now < 2 ^ 31 }
    ensures { result ≡ spec.column_in line.now before }
{
    let mut rest = line;
    let mut column: usize = 1;
    let mut left = before;
    for _ in line {
        let len = front_len(rest);
        column = column.saturating_add(begins(left, len));
        left = left.saturating_sub(len);
        rest = behind_front(rest, len);
    }
    column
}

/// Where the byte of an offset stands.
pub fn place_at(bytes: &[u8], at: usize) -> Place
    requires within { at ≤ length bytes.now }
    requires short { length bytes.now < 2 ^ 31 }
    ensures is { result ≡ spec.place_at bytes.now at }
    ensures at { result.at ≡ at }
    ensures start { result.start ≤ at }
{
    let row = row_at(bytes, at);
    let line = line_at(bytes, row.start);
    Place {
        at,
        start: row.start,
        line: row.line,
        column: column_in(line, at - row.start),
    }
}

fn in_line(byte: u8) -> bool
    ensures { result ≡ spec.in_line byte }
{
    byte != b'\n'
}

/// How many bytes in front are of one line.
fn line_len(bytes: &[u8]) -> usize
    ensures value { result ≡ prefix_len spec.in_line bytes.now }
    ensures within { result ≤ length bytes.now }
{
    bytes.iter().take_while(|byte| in_line(**byte)).count()
}

/// Whether a carriage return stands at the end.
fn ends_in_return(bytes: &[u8]) -> bool
    ensures { result ≡ spec.ends_in_return bytes.now }
{
    if bytes.is_empty() {
        return false;
    }
    bytes[bytes.len() - 1] == b'\r'
}

/// The bytes without one carriage return at their end.
fn without_return(bytes: &[u8]) -> &[u8]
    ensures is { result.now ≡ spec.without_return bytes.now }
    ensures short { length result.now ≤ length bytes.now }
{
    if ends_in_return(bytes) {
        let (front, _) = bytes.split_at(bytes.len().saturating_sub(1));
        return front;
    }
    bytes
}

/// The line that begins at an offset, without what ends it.
pub fn line_at(bytes: &[u8], start: usize) -> &[u8]
    requires { start ≤ length bytes.now }
    ensures is { result.now ≡ spec.line_at bytes.now start }
    ensures short { length result.now ≤ length bytes.now }
{
    let (_, rest) = bytes.split_at(start);
    let (line, _) = rest.split_at(line_len(rest));
    without_return(line)
}

/// Where the line of a number begins, or the end of the text where there is no such line.
pub fn offset_of_line(bytes: &[u8], line: usize) -> usize
    ensures { result ≤ length bytes.now }
{
    let mut number = 1;
    for at in 0..bytes.len() {
        if number == line {
            return at;
        }
        if bytes[at] == b'\n' {
            number = number.saturating_add(1);
        }
    }
    bytes.len()
}
