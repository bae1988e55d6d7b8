//! What is painted of a line.

ghost use Rattle.std.specs.Prelude.{◌≤◌, length, IfSome};

use super::paint::Paint;

/// A part of a line, from a place to an end, and how it looks.
#[derive(Clone, Copy)]
pub(super) struct Spot {
    pub paint: Paint,
    pub from: usize,
    pub to: usize,
}

/// How many bytes of a line stand before its line feed.
fn end_of(line: &[u8]) -> usize
    ensures { result ≤ length line.now }
{
    match line {
        [front @ .., b'\n'] => front.len(),
        _ => line.len(),
    }
}

/// Where the mark of a line begins, if it has one: behind blanks, a bar and blanks.
fn mark_at(line: &[u8]) -> Option<usize>
    ensures { IfSome result (λ at. at ≤ length line.now) }
{
    let mut has_bar = false;
    for at in 0..line.len() {
        match line[at] {
            b' ' => {}
            b'|' if !has_bar => has_bar = true,
            b'^' | b'-' if has_bar => return Some(at),
            _ => return None,
        }
    }
    None
}

/// Whether signs of a mark stand in front, and behind them a blank or the end.
fn is_mark(bytes: &[u8]) -> bool {
    match bytes
        .iter()
        .find(|byte| **byte != b'^' && **byte != b'-')
        .copied()
    {
        Some(byte) => byte == b' ' || byte == b'\n',
        None => true,
    }
}

/// How a mark looks that begins so.
fn paint_of(bytes: &[u8]) -> Paint {
    match bytes.first().copied() {
        Some(b'^') => Paint::Red,
        _ => Paint::Cyan,
    }
}

/// The mark of a line with its label.
fn marked(line: &[u8]) -> Option<Spot>
    ensures { IfSome result (λ spot. (spot.from ≤ spot.to) × (spot.to ≤ length line.now)) }
{
    let from = mark_at(line)?;
    let to = end_of(line);
    let (_, bytes) = line.split_at(from);
    if to < from || !is_mark(bytes) {
        return None;
    }
    let paint = paint_of(bytes);
    Some(Spot { paint, from, to })
}

/// How many bytes in front are a word that says what follows.
fn word_len(line: &[u8]) -> usize
    ensures { result ≤ length line.now }
{
    for word in [
        b"wanted:".as_slice(),
        b"why:".as_slice(),
        b"next:".as_slice(),
        b"note:".as_slice(),
    ]
    .iter()
    {
        if line.starts_with(word) {
            return word.len().min(line.len());
        }
    }
    0
}

/// The word of a line that says what follows, if it has one.
fn word_spot(line: &[u8]) -> Spot
    ensures from { result.from ≤ result.to }
    ensures to { result.to ≤ length line.now }
{
    let to = word_len(line);
    let paint = if to == 0 { Paint::Plain } else { Paint::Bold };
    Spot { paint, from: 0, to }
}

/// What is painted of a line.
pub(super) fn spot_of(line: &[u8], is_first: bool) -> Spot
    ensures from { result.from ≤ result.to }
    ensures to { result.to ≤ length line.now }
{
    if is_first {
        return Spot {
            paint: Paint::Bold,
            from: 0,
            to: end_of(line),
        };
    }
    match marked(line) {
        Some(spot) => spot,
        None => word_spot(line),
    }
}
