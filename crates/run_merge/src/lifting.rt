//! The run of the high level that is read off a run of the low level.

ghost use Rattle.std.specs.Prelude.{◌≡◌, IfOk};
ghost use Rattle.np_lift.specs.Lift.{lift, lifted, posted};

use np_syntax::{Event, Kind, List, Made, Memory, Role, Tag};
use std::alloc::Global;

/// The events of the high level that events of the low level are, in the same order. Those of the infrastructure are none,
/// and so is the landing of a post. A Send of a post is a Post, and all other events stay.
pub fn lift(alloc: Global, events: &[Event]) -> Result<List<Event>, Memory>
    ensures { IfOk result (λ made. made ≡ lift events.now) }
{
    let mut made = List::new(alloc);
    for event in events {
        if let Some(one) = lifted(event) {
            made.add(one)?;
        }
    }
    Ok(made)
}

/// The event of the high level that an event of the low level is, if it is any.
fn lifted(event: &Event) -> Option<Event>
    ensures { result ≡ lifted event.now }
{
    match (event.tag.role, event.kind) {
        (Role::Infra, _) | (Role::Post, Kind::Land) => None,
        (Role::Post, Kind::Send) => Some(posted(event)),
        _ => Some(*event),
    }
}

/// The Post that a Send is.
fn posted(event: &Event) -> Event
    ensures { result ≡ posted event.now }
{
    Event {
        site: event.site,
        kind: Kind::Post,
        actor: event.actor,
        other: None,
        tag: Tag {
            node: event.tag.node,
            role: Role::Plain,
        },
        made: Made::Nothing,
    }
}
