//! Strings that are none.

ghost use Rattle.std.specs.Prelude.{IfOk};
ghost use Rattle.token_reasons.specs.Marks.{MarksAt};

use np_syntax::{List, Memory};
use source_places::{Mark, Range, Reasons, counted, filled, marked};
use std::alloc::Global;

/// What is wrong with a string that begins at an offset: it is not closed up to another one, it is too long, which has so many bytes, or
/// what stands at an offset may not stand in it.
#[derive(Clone, Copy)]
enum Flaw {
    Open(usize),
    Long(usize, u64),
    Escape(usize),
    Low(usize),
}

/// What a byte of a string is, where one byte stands before it.
fn flaw_at(bytes: &[u8], at: usize, read: u64) -> Option<Flaw> {
    match bytes.get(at) {
        None | Some(b'\n') => Some(Flaw::Open(at)),
        Some(b'"') => Some(Flaw::Long(at.saturating_add(1), read)),
        Some(b'\\') => match bytes.get(at.saturating_add(1)) {
            Some(b'n' | b'"' | b'\\') => None,
            _ => Some(Flaw::Escape(at)),
        },
        Some(byte) if *byte < b' ' => Some(Flaw::Low(at)),
        Some(_) => None,
    }
}

/// What is wrong with the string that begins at an offset.
fn flaw_of(bytes: &[u8], at: usize) -> Flaw {
    let mut place = at.saturating_add(1);
    let mut read: u64 = 0;
    for _ in bytes {
        if let Some(flaw) = flaw_at(bytes, place, read) {
            return flaw;
        }
        let escaped = matches!(bytes.get(place), Some(b'\\'));
        place = place.saturating_add(if escaped { 2 } else { 1 });
        read = read.saturating_add(1);
    }
    Flaw::Open(bytes.len())
}

/// The mark on what may not stand in a string.
fn not_in_string(
    alloc: Global,
    bytes: &[u8],
    from: usize,
    len: usize,
) -> Result<Option<Mark>, Memory> {
    let label = List::from_slice(alloc, b"not in a string")?;
    let to = from.saturating_add(len).min(bytes.len());
    Ok(Some(Mark {
        range: Range { from, to },
        label,
    }))
}

/// What is told of a string: its mark up to an offset, another mark, what was wanted, and how to go on.
fn told(
    alloc: Global,
    at: usize,
    to: usize,
    beside: Option<Mark>,
    wanted: &[u8],
    next: &[u8],
) -> Result<Reasons, Memory>
    ensures { IfOk result (MarksAt at) }
{
    let label = List::from_slice(alloc, b"begins a string")?;
    let wanted = List::from_slice(alloc, wanted)?;
    let next = List::from_slice(alloc, next)?;
    Ok(Reasons {
        refused: Some(marked(Range { from: at, to }, at, label)),
        beside,
        wanted,
        why: List::new(alloc),
        next,
    })
}

/// What is told of a string that is too long.
fn long_reasons(alloc: Global, at: usize, to: usize, read: u64) -> Result<Reasons, Memory>
    ensures { IfOk result (MarksAt at) }
{
    let count = counted(alloc, read)?;
    let label = filled(alloc, b"a string of % bytes", count.as_slice())?;
    let wanted = List::from_slice(alloc, b"at most 1,024 bytes, after the escapes are read")?;
    let next = List::from_slice(alloc, b"make several strings of it: `[\"one\" \"two\"]`")?;
    Ok(Reasons {
        refused: Some(marked(Range { from: at, to }, at, label)),
        beside: None,
        wanted,
        why: List::new(alloc),
        next,
    })
}

/// What is told of a string that is none.
pub fn string_reasons(alloc: Global, bytes: &[u8], at: usize) -> Result<Reasons, Memory>
    ensures { IfOk result (MarksAt at) }
{
    let quote = at.saturating_add(1);
    match flaw_of(bytes, at) {
        Flaw::Open(to) => {
            let wanted = b"a `\"` that closes it, on this line";
            let next = b"write `\"` behind its last character; a line break in a string is `\\n`";
            told(alloc, at, to, None, wanted, next)
        }
        Flaw::Long(to, read) => long_reasons(alloc, at, to, read),
        Flaw::Escape(place) => {
            let beside = not_in_string(alloc, bytes, place, 2)?;
            let wanted = b"one of the escapes `\\n`, `\\\"` and `\\\\`";
            let next = b"a backslash itself is written `\\\\`";
            told(alloc, at, quote, beside, wanted, next)
        }
        Flaw::Low(place) => {
            let beside = not_in_string(alloc, bytes, place, 1)?;
            let wanted = b"bytes from 32 on in a string";
            let next = b"write spaces for a tab, and `\\n` for a line break";
            told(alloc, at, quote, beside, wanted, next)
        }
    }
}
