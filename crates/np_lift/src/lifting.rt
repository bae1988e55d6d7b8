ghost use Rattle.std.specs.Prelude.{◌≡◌, ◌++◌, [], IfOk, OnOk};
ghost use Rattle.std.specs.FinSet as set;
ghost use Rattle.np_lift.specs.Posts.{prepended};
ghost use Rattle.np_lift.specs.CachedLift.{is_dropped, lift_cached, lifted};

use super::stand_ins::StandIns;
use np_syntax::{Event, Kind, List, Made, Memory, Role};
use std::alloc::Global;

/// The events of the high level that events of the low level are, in the same order, where the infrastructure has caches and
/// messengers. A post is sent to the daemon, or a messenger is created for it. The mark of the messenger and that of the
/// output which it makes stand for the mark of the post.
pub fn lift_cached(alloc: Global, events: &[Event]) -> Result<List<Event>, Memory>
    ensures { IfOk result (λ made. made ≡ lift_cached events.now) }
{
    let mut stand_ins = StandIns::new(alloc);
    let mut made = List::new(alloc);
    for event in events {
        add_lifted(event, &mut stand_ins, &mut made)?;
    }
    Ok(made)
}

/// Adds the event of the high level that an event of the low level is, if it is any.
fn add_lifted(event: &Event, stand_ins: &mut StandIns, made: &mut List<Event>) -> Result<(), Memory>
    ensures made { OnOk result (made.new ≡ made.old ++ prepended (lifted stand_ins.old event.now).event []) }
    ensures standing { OnOk result (stand_ins.new ≡ (lifted stand_ins.old event.now).standing) }
{
    match lifted(event, stand_ins)? {
        Some(one) => made.add(one),
        None => Ok(()),
    }
}

/// The event of the high level that an event of the low level is, if it is any, and then what its names stand for.
fn lifted(event: &Event, stand_ins: &mut StandIns) -> Result<Option<Event>, Memory>
    ensures event { IfOk result (λ made. made ≡ (lifted stand_ins.old event.now).event) }
    ensures standing { OnOk result (stand_ins.new ≡ (lifted stand_ins.old event.now).standing) }
{
    match (event.tag.role, event.kind, event.made) {
        (Role::Post, Kind::Agent, Made::Two(messenger, mark)) => {
            let post = stand_ins.posted(event);
            stand_ins.add_messenger(messenger, mark, event.actor)?;
            Ok(Some(post))
        }
        (Role::Infra, Kind::Local, Made::One(mark)) => {
            stand_ins.add_mark(mark, event.actor)?;
            Ok(None)
        }
        (Role::Post, Kind::Send, _) => Ok(Some(stand_ins.posted(event))),
        _ if is_dropped(event, stand_ins) => Ok(None),
        _ => Ok(Some(stand_ins.renamed(event))),
    }
}

/// Whether the event is the landing of a post, one of the infrastructure, or the arrival of a messenger.
fn is_dropped(event: &Event, stand_ins: &StandIns) -> bool
    ensures { result ≡ is_dropped event.now.tag.role event.now.kind (set.contains stand_ins.now.messengers event.now.actor) }
{
    match (event.tag.role, event.kind) {
        (Role::Post, Kind::Land) | (Role::Infra, _) => true,
        (_, Kind::Arrive) => stand_ins.is_messenger(event.actor),
        _ => false,
    }
}
