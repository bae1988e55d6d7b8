//! How pieces are painted.

ghost use Rattle.std.specs.Prelude.{◌≡◌, ◌++◌, IfOk, OnOk};
ghost use Rattle.std.specs.List.{flat_map};
ghost use Rattle.text_colours.specs.Colours as spec;

use super::pieces::{Piece, pieces_of};
use np_syntax::{List, Memory, Text};
use std::alloc::Global;

/// How a piece of a text looks.
#[derive(Clone, Copy)]
pub enum Paint {
    Plain,
    Bold,
    Red,
    Cyan,
}

/// The sequence before a piece.
fn opening(paint: Paint) -> &'static [u8]
    ensures { result.now ≡ spec.opening paint }
{
    match paint {
        Paint::Plain => b"",
        Paint::Bold => b"\x1b[1m",
        Paint::Red => b"\x1b[31m",
        Paint::Cyan => b"\x1b[36m",
    }
}

/// The sequence behind it.
fn closing(paint: Paint) -> &'static [u8]
    ensures { result.now ≡ spec.closing paint }
{
    match paint {
        Paint::Plain => b"",
        Paint::Bold | Paint::Red | Paint::Cyan => b"\x1b[0m",
    }
}

/// Adds a piece to a text.
fn add_painted(text: &mut Text, piece: &Piece) -> Result<(), Memory>
    ensures { OnOk result (text.new ≡ text.old ++ spec.painted piece.now) }
{
    text.append(opening(piece.paint))?;
    text.append(piece.text.as_slice())?;
    text.append(closing(piece.paint))
}

/// The text of pieces as they are painted.
fn painted(alloc: Global, pieces: &[Piece]) -> Result<Text, Memory>
    ensures { IfOk result (λ text. text ≡ flat_map spec.painted pieces.now) }
{
    let mut text = List::new(alloc);
    for piece in pieces {
        add_painted(&mut text, piece)?;
    }
    Ok(text)
}

/// A diagnosis in colours.
pub fn coloured(alloc: Global, text: &[u8]) -> Result<Text, Memory>
    ensures { IfOk result (spec.IsColoured text.now) }
{
    let pieces = pieces_of(alloc, text)?;
    painted(alloc, pieces.as_slice())
}
