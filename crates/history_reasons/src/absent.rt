//! Marks under which nothing stands.

use super::names::Seen;
use np_syntax::{Event, Memory, Name, Text};

/// Whether an event has a name as its actor or as what it takes.
fn touches(event: &Event, name: Name) -> bool {
    event.actor == name || event.other == Some(name)
}

/// The index of the last event before one that touches a mark.
fn last_touch(seen: Seen<'_>, name: Name) -> Option<usize> {
    let mut found = None;
    let events = seen.events.get(..seen.index).unwrap_or(&[]);
    for index in 0..events.len() {
        if touches(&events[index], name) {
            found = Some(index);
        }
    }
    found
}

/// Why nothing stands under a mark.
pub(super) fn absent_text(seen: Seen<'_>, name: Name) -> Result<Text, Memory> {
    let made = seen.maker_from(name, 0);
    if let Some(later) = made
        && seen.index <= later
    {
        let line = seen.line_text(later)?;
        return seen.with(b"made further down, in %", &line);
    }
    if let Some(last) = last_touch(seen, name) {
        let line = seen.line_text(last)?;
        return seen.with(b"gone since %", &line);
    }
    match made {
        Some(_) => seen.text(b"this name is no mark"),
        None => seen.text(b"nothing stands under this mark"),
    }
}
