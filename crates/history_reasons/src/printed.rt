//! Lines that are not printed.

ghost use Rattle.std.specs.Prelude.{◌≡◌};
ghost use Rattle.np_syntax.specs.Events.{is_print};
ghost use Rattle.history_reasons.specs.Counts.{lines_printed};

use super::field::KIND;
use super::layout::{Layout, range_of};
use np_syntax::{Event, Kind, List, Memory};
use source_places::{Reasons, filled, marked, number_text, without_marks};
use std::alloc::Global;

/// The index of the last event that prints.
fn last_print(events: &[Event]) -> Option<usize> {
    let mut found = None;
    for index in 0..events.len() {
        if is_print(&events[index]) {
            found = Some(index);
        }
    }
    found
}

/// Whether an event prints.
fn is_print(event: &Event) -> bool
    ensures { result ≡ is_print event.now.kind }
{
    match event.kind {
        Kind::Print => true,
        _ => false,
    }
}

/// How many lines events print.
fn lines_printed(events: &[Event]) -> usize
    ensures { result ≡ lines_printed events.now }
{
    events.iter().filter(|event| is_print(event)).count()
}

/// What is told of a history that prints no line of a number: it prints so many.
pub fn no_line(
    alloc: Global,
    bytes: &[u8],
    layout: Layout,
    events: &[Event],
) -> Result<Reasons, Memory> {
    let Some(last) = last_print(events) else {
        let next = b"nothing is printed in this history";
        return without_marks(alloc, b"a history that prints", next);
    };
    let printed = lines_printed(events);
    let count = number_text(alloc, printed as u64)?;
    let words: &[u8] = if printed == 1 {
        b"give `--line %`"
    } else {
        b"give `--line %` or less"
    };
    let label = filled(alloc, b"line %, the last that is printed", count.as_slice())?;
    let wanted = filled(alloc, b"`--line` of at most %", count.as_slice())?;
    let next = filled(alloc, words, count.as_slice())?;
    let range = range_of(bytes, layout, last, KIND);
    Ok(Reasons {
        refused: Some(marked(range, range.from, label)),
        beside: None,
        wanted,
        why: List::new(alloc),
        next,
    })
}
