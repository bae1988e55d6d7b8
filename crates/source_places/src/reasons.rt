//! What is told of a place.

ghost use Rattle.std.specs.Prelude.{◌≡◌, ◌≤◌, ◌<◌, IfOk};
ghost use Rattle.source_places.specs.Holds.{Holds};

use np_syntax::{List, Memory, Text};
use std::alloc::Global;

/// The bytes from an offset to another one.
#[derive(Clone, Copy)]
pub struct Range {
    pub from: usize,
    pub to: usize,
}

/// A range of a text with what is said of it.
#[derive(Drop)]
pub struct Mark {
    pub range: Range,
    pub label: Text,
}

/// What is told of a place: the range that is refused, one that explains it, what was wanted, why, and how to go on. An empty text is
/// not told.
#[derive(Drop)]
pub struct Reasons {
    pub refused: Option<Mark>,
    pub beside: Option<Mark>,
    pub wanted: Text,
    pub why: Text,
    pub next: Text,
}

/// A mark on a range that holds an offset: the range that was found is made longer where it does not hold it.
pub fn marked(found: Range, at: usize, label: Text) -> Mark
    ensures { Holds result at }
{
    Mark {
        range: Range {
            from: found.from.min(at),
            to: found.to.max(at.saturating_add(1)),
        },
        label,
    }
}

/// Reasons that mark nothing.
pub fn without_marks(alloc: Global, wanted: &[u8], next: &[u8]) -> Result<Reasons, Memory> {
    let wanted = List::from_slice(alloc, wanted)?;
    let next = List::from_slice(alloc, next)?;
    Ok(Reasons {
        refused: None,
        beside: None,
        wanted,
        why: List::new(alloc),
        next,
    })
}
