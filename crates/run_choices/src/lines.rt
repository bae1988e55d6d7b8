//! The lines of marks by what they wait for, and the entries that come and go with them.

ghost use Rattle.std.specs.Prelude.{◌≡◌, true, false, None, cond, IfOk, OnOk};
ghost use Rattle.indexmap.specs.IndexMap as index_map;
ghost use Rattle.np_tables.specs.Errands.{same_errand};
ghost use Rattle.run_choices.specs.Lines.{Moves, SetsEntry, closed_by, has_some, line_of, meeting_if, opened_by};

use super::line::Line;
use choice_entries::Entry;
use indexmap::{IndexMap, IndexSet};
use np_syntax::{Memory, Name};
use np_tables::{Errand, Meeting};
use std::alloc::Global;

/// Takes out the line of an errand.
fn take_line(alloc: Global, lines: &mut IndexMap<Errand, Line>, errand: Errand) -> Line
    ensures line { result ≡ line_of lines.old errand }
    ensures others { (f : Errand) → index_map.get same_errand lines.new f
        ≡ cond (same_errand errand f) None (index_map.get same_errand lines.old f) }
{
    match lines.swap_remove(&errand) {
        Some(line) => line,
        None => Line::new(alloc),
    }
}

/// A mark comes into the line of an errand.
pub fn enter(
    alloc: Global,
    lines: &mut IndexMap<Errand, Line>,
    errand: Errand,
    mark: Name,
) -> Result<(), Memory>
    ensures { OnOk result (Moves (line_of lines.old) (line_of lines.new) errand mark true) }
{
    let mut line = take_line(alloc, lines, errand);
    line.insert(mark)?;
    match lines.insert(errand, line) {
        Ok(_) => Ok(()),
        Err(_) => Err(Memory),
    }
}

/// A mark leaves the line of an errand, which is given up where it was the last. This tells whether others are in it still.
pub fn leave(
    alloc: Global,
    lines: &mut IndexMap<Errand, Line>,
    errand: Errand,
    mark: Name,
) -> Result<bool, Memory>
    ensures lines { OnOk result (Moves (line_of lines.old) (line_of lines.new) errand mark false) }
    ensures others { IfOk result (λ others. others ≡ has_some (line_of lines.new errand)) }
{
    let mut line = take_line(alloc, lines, errand);
    line.remove(mark);
    if !line.has_some() {
        return Ok(false);
    }
    match lines.insert(errand, line) {
        Ok(_) => Ok(true),
        Err(_) => Err(Memory),
    }
}

/// Whether marks wait for this.
fn any_waits(lines: &IndexMap<Errand, Line>, errand: Errand) -> bool
    ensures { result ≡ has_some (line_of lines.now errand) }
{
    match lines.get(&errand) {
        Some(line) => line.has_some(),
        None => false,
    }
}

/// The entry of a meeting, if this is.
fn meeting_if(meets: bool, meeting: Meeting) -> Option<Entry>
    ensures { result ≡ meeting_if meets meeting }
{
    if meets {
        Some(Entry::Meets(meeting))
    } else {
        None
    }
}

/// The entry that stands there once a mark has come into the line of its errand.
pub fn opened_by(lines: &IndexMap<Errand, Line>, mark: Name, errand: Errand) -> Option<Entry>
    ensures { result ≡ opened_by (line_of lines.now) mark errand }
{
    match errand {
        Errand::Acts => Some(Entry::Acts(mark)),
        Errand::Gives(meeting) => meeting_if(any_waits(lines, Errand::Takes(meeting)), meeting),
        Errand::Takes(meeting) => meeting_if(any_waits(lines, Errand::Gives(meeting)), meeting),
        Errand::Stuck => None,
    }
}

/// The entry that goes where a mark has left the line of its errand, in which others are still or none.
pub fn closed_by(mark: Name, errand: Errand, others: bool) -> Option<Entry>
    ensures { result ≡ closed_by mark errand others }
{
    match errand {
        Errand::Acts => Some(Entry::Acts(mark)),
        Errand::Gives(meeting) | Errand::Takes(meeting) => meeting_if(!others, meeting),
        Errand::Stuck => None,
    }
}

/// An entry stands in the list from now on, or does not.
pub fn set_entry(
    entries: &mut IndexSet<Entry>,
    entry: Option<Entry>,
    stands: bool,
) -> Result<(), Memory>
    ensures { OnOk result (SetsEntry entries.old.keys entries.new.keys entry stands) }
{
    let Some(entry) = entry else {
        return Ok(());
    };
    if !stands {
        let _ = entries.swap_remove(&entry);
        return Ok(());
    }
    match entries.insert(entry) {
        Ok(_) => Ok(()),
        Err(_) => Err(Memory),
    }
}
