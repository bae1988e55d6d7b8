//! A diagnosis cut into pieces.

ghost use Rattle.std.specs.Prelude.{◌≡◌, ◌≢◌, ◌++◌, ◌<◌, ◌≤◌, [], length, IfOk, OnOk};
ghost use Rattle.text_colours.specs.Colours.{text_of};

use super::paint::Paint;
use super::spots::{Spot, spot_of};
use np_syntax::{List, Memory, Text};
use std::alloc::Global;

/// A part of a text, and how it looks.
#[derive(Drop)]
pub struct Piece {
    pub paint: Paint,
    pub text: Text,
}

/// Notes a piece.
fn add_piece(
    alloc: Global,
    pieces: &mut List<Piece>,
    paint: Paint,
    bytes: &[u8],
) -> Result<(), Memory>
    ensures { OnOk result (text_of pieces.new ≡ text_of pieces.old ++ bytes.now) }
{
    let text = List::from_slice(alloc, bytes)?;
    pieces.add(Piece { paint, text })
}

/// Notes the pieces of a line.
fn add_line(
    alloc: Global,
    pieces: &mut List<Piece>,
    line: &[u8],
    is_first: bool,
) -> Result<(), Memory>
    ensures { OnOk result (text_of pieces.new ≡ text_of pieces.old ++ line.now) }
{
    let Spot { paint, from, to } = spot_of(line, is_first);
    let (front, behind) = line.split_at(to);
    let (before, inside) = front.split_at(from);
    add_piece(alloc, pieces, Paint::Plain, before)?;
    add_piece(alloc, pieces, paint, inside)?;
    add_piece(alloc, pieces, Paint::Plain, behind)
}

/// How many bytes the first line has, with its line feed.
fn line_len(text: &[u8]) -> usize
    requires { text.now ≢ [] }
    ensures some { 0 < result }
    ensures within { result ≤ length text.now }
{
    for at in 0..text.len() {
        if text[at] == b'\n' {
            return at + 1;
        }
    }
    text.len()
}

/// The pieces of a text.
pub(super) fn pieces_of(alloc: Global, text: &[u8]) -> Result<List<Piece>, Memory>
    ensures { IfOk result (λ pieces. text_of pieces ≡ text.now) }
{
    let mut pieces = List::new(alloc);
    let mut is_first = true;
    let mut rest = text;
    'lines: while !rest.is_empty() {
        let (line, behind) = rest.split_at(line_len(rest));
        add_line(alloc, &mut pieces, line, is_first)?;
        is_first = false;
        rest = behind;
    }
    Ok(pieces)
}
