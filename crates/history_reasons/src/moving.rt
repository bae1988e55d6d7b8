//! Events of what is under way.

use super::names::{Seen, Wrong};
use np_syntax::{Event, Kind, Memory, Name, Text};
use source_places::{filled_by, number_text};

/// What was wanted where an item goes to another site.
fn goes_to(seen: Seen<'_>, who: Text, site: u32) -> Result<Text, Memory> {
    let name = seen.site_text(site)?;
    let number = number_text(seen.alloc, u64::from(site))?;
    let front = seen.with(b"`%`, since ", &number)?;
    let mut wanted = front;
    let rest = filled_by(seen.alloc, b"% goes to #", who.as_slice(), name.as_slice())?;
    wanted.append(rest.as_slice())?;
    Ok(wanted)
}

/// What is told of an Arrive whose agent is not under way.
pub(super) fn no_traveller(seen: Seen<'_>, event: &Event) -> Result<Wrong, Memory> {
    let label = match seen.reached.place(event.actor) {
        Some(_) => seen.agent_where(event.actor)?,
        None => seen.text(b"no agent of this name")?,
    };
    seen.alien(label, seen.text(b"an agent that is under way")?)
}

/// What is told of an Arrive at another site than the one to which its agent goes.
pub(super) fn arrives_elsewhere(seen: Seen<'_>, event: &Event, to: u32) -> Result<Wrong, Memory> {
    let wanted = goes_to(seen, seen.agent_text(event.actor)?, to)?;
    Ok(seen.wrong(seen.site_text(event.site)?, wanted))
}

/// What is told of a Land at another site than the one to which its packet goes.
pub(super) fn lands_elsewhere(seen: Seen<'_>, event: &Event, to: u32) -> Result<Wrong, Memory> {
    let wanted = goes_to(seen, seen.text(b"the packet")?, to)?;
    Ok(seen.wrong(seen.site_text(event.site)?, wanted))
}

/// The first event from one on, or the last one before another, that has a kind and an actor.
fn index_of(events: &[Event], kind: Kind, actor: Name, last: bool) -> Option<usize> {
    let mut found = None;
    for index in 0..events.len() {
        let event = &events[index];
        if event.kind == kind && event.actor == actor {
            found = Some(index);
            if !last {
                return found;
            }
        }
    }
    found
}

/// What is told of a packet that is not under way.
pub(super) fn no_packet(seen: Seen<'_>, event: &Event) -> Result<Wrong, Memory> {
    let wanted = seen.text(b"a packet that is under way")?;
    let behind = seen.index.saturating_add(1);
    let later = seen.events.get(behind..).unwrap_or(&[]);
    if let Some(ahead) = index_of(later, Kind::Send, event.actor, false) {
        let sent = behind.saturating_add(ahead);
        let label = seen.with(b"sent further down, in %", &seen.line_text(sent)?)?;
        return seen.early(label, wanted, Some(sent));
    }
    let earlier = seen.events.get(..seen.index).unwrap_or(&[]);
    let label = match index_of(earlier, Kind::Land, event.actor, true) {
        Some(landed) => seen.with(b"landed in %", &seen.line_text(landed)?)?,
        None => seen.text(b"no packet has this mark")?,
    };
    seen.alien(label, wanted)
}
