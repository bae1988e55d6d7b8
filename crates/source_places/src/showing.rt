//! Characters as they are shown on a terminal.

ghost use Rattle.std.specs.Prelude.{◌≡◌, ◌≤◌, ◌%◌, None, drop, length, take};
ghost use Rattle.std.specs.List.{prefix_len};
ghost use Rattle.text_writer.specs.Writes.{Writes};
ghost use Rattle.source_places.specs.Shown as spec;
ghost use Rattle.markup_text.specs.Escapes.{hex_digit};

use bstr::decode_utf8;
use markup_text::put_number;
use np_syntax::Text;
use text_writer::TextWriter;

/// Characters that are shown in one column, from the first of each range to its last.
pub const NARROW: [(u32, u32); 9] = [
    (0xa1, 0xac),
    (0xae, 0x2ff),
    (0x370, 0x482),
    (0x48a, 0x58f),
    (0x1e00, 0x1fff),
    (0x2010, 0x2027),
    (0x2030, 0x205e),
    (0x2190, 0x22ff),
    (0x2500, 0x25ff),
];

/// Characters that are shown in two columns.
pub const WIDE: [(u32, u32); 8] = [
    (0x1100, 0x115f),
    (0x2e80, 0x3029),
    (0x3030, 0x3098),
    (0x309b, 0xa4cf),
    (0xac00, 0xd7a3),
    (0xf900, 0xfaff),
    (0xff01, 0xff60),
    (0x1f300, 0x1f64f),
];

fn is_within(ranges: &[(u32, u32)], c: u32) -> bool
    ensures { result ≡ spec.is_within ranges.now c }
{
    ranges.iter().any(|range| range.0 <= c && c <= range.1)
}

/// How many bytes the character in front has.
pub fn front_len(bytes: &[u8]) -> usize
    ensures is { result ≡ spec.front_len bytes.now }
{
    let (found, size) = decode_utf8(bytes);
    match found {
        Some(_) => size,
        None => bytes.len().min(1),
    }
}

/// The bytes behind so many others.
pub(super) fn behind_front(bytes: &[u8], len: usize) -> &[u8]
    ensures { result.now ≡ drop len bytes.now }
{
    bytes.get(len..).unwrap_or(&[])
}

/// The first bytes, so many of them.
fn front_of(bytes: &[u8], len: usize) -> &[u8]
    ensures { result.now ≡ take len bytes.now }
{
    bytes.get(..len).unwrap_or(bytes)
}

/// How many columns the character in front is shown in.
pub(super) fn front_width(bytes: &[u8]) -> usize {
    let (found, _) = decode_utf8(bytes);
    let Some(found) = found else {
        return 4;
    };
    let c = u32::from(found);
    if c < 128 {
        return if 32 <= c && c < 127 { 1 } else { 4 };
    }
    if is_within(NARROW.as_slice(), c) {
        1
    } else if is_within(WIDE.as_slice(), c) {
        2
    } else {
        digits_of(c)
            .iter()
            .skip_while(|digit| **digit == b'0')
            .count()
            .saturating_add(4)
    }
}

/// How many columns bytes are shown in.
pub fn shown_width(bytes: &[u8]) -> usize {
    let mut rest = bytes;
    let mut width: usize = 0;
    for _ in bytes {
        if rest.is_empty() {
            return width;
        }
        width = width.saturating_add(front_width(rest));
        rest = behind_front(rest, front_len(rest));
    }
    width
}

/// The last digit of a number to the base 16.
fn hex_digit(number: u32) -> u8
    ensures { result ≡ hex_digit (number % 16) }
{
    let digit = (number % 16) as u8;
    if digit < 10 {
        48 + digit
    } else {
        97 + (digit - 10)
    }
}

fn digits_of(c: u32) -> [u8; 6]
    ensures { result ≡ spec.digits c }
{
    [
        hex_digit(c / 1_048_576),
        hex_digit(c / 65_536),
        hex_digit(c / 4096),
        hex_digit(c / 256),
        hex_digit(c / 16),
        hex_digit(c),
    ]
}

fn is_zero(digit: u8) -> bool
    ensures { result ≡ spec.is_zero digit }
{
    digit == b'0'
}

/// How many zeros stand in front.
fn zeros_len(digits: &[u8]) -> usize
    ensures value { result ≡ prefix_len spec.is_zero digits.now }
    ensures within { result ≤ length digits.now }
{
    digits.iter().take_while(|digit| is_zero(**digit)).count()
}

/// Writes digits without zeros in front.
fn put_short(text: &mut TextWriter, digits: &[u8])
    ensures { Writes text.old text.new (spec.short_digits digits.now) }
{
    let (_, short) = digits.split_at(zeros_len(digits));
    text.put(short)
}

/// Writes a character by its number.
fn put_escaped(text: &mut TextWriter, c: u32)
    ensures { Writes text.old text.new (spec.escaped c) }
{
    text.put(b"\\u{");
    put_short(text, digits_of(c).as_slice());
    text.put(b"}")
}

/// Writes a byte: itself where it can be printed, four blanks for a tab, and else its number.
fn put_byte(text: &mut TextWriter, byte: u8)
    ensures { Writes text.old text.new (spec.shown_byte byte) }
{
    match byte {
        b' '..=b'~' => text.put_byte(byte),
        b'\t' => text.put(b"    "),
        _ => put_number(text, byte),
    }
}

/// Writes a character of these bytes.
fn put_char(text: &mut TextWriter, c: u32, bytes: &[u8])
    ensures { Writes text.old text.new (spec.shown_char c bytes.now) }
{
    if c < 128 {
        put_byte(text, c as u8)
    } else if is_within(NARROW.as_slice(), c) || is_within(WIDE.as_slice(), c) {
        text.put(bytes)
    } else {
        put_escaped(text, c)
    }
}

/// Writes these bytes one by one.
fn put_bytes(text: &mut TextWriter, bytes: &[u8])
    ensures { Writes text.old text.new (spec.shown_found None bytes.now) }
{
    for byte in bytes {
        put_byte(text, *byte);
    }
}

/// Writes the character in front.
fn put_front(text: &mut TextWriter, bytes: &[u8])
    ensures { Writes text.old text.new (spec.shown_front bytes.now) }
{
    let (found, _) = decode_utf8(bytes);
    let front = front_of(bytes, front_len(bytes));
    match found {
        Some(c) => put_char(text, u32::from(c), front),
        None => put_bytes(text, front),
    }
}

/// Writes bytes as they are shown.
pub fn put_shown(text: &mut TextWriter, bytes: &[u8])
    ensures { Writes text.old text.new (spec.shown bytes.now) }
{
    let mut rest = bytes;
    for _ in bytes {
        put_front(text, rest);
        rest = behind_front(rest, front_len(rest));
    }
}

/// Writes a line as it is shown.
fn put_line(text: &mut TextWriter, line: &Text)
    ensures { Writes text.old text.new (spec.shown_line line.now) }
{
    put_shown(text, line.as_slice());
    text.put(b"\n")
}

/// Writes lines as they are shown.
pub fn put_lines(text: &mut TextWriter, lines: &[Text])
    ensures { Writes text.old text.new (spec.shown_lines lines.now) }
{
    for line in lines {
        put_line(text, line);
    }
}
