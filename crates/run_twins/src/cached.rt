//! Twins with caches.

ghost use Rattle.std.specs.Prelude.{◌≡◌, ◌<◌, ◌^◌, is_some, length, IfOk, OnOk};
ghost use Rattle.std.specs.FinSet as set;
ghost use Rattle.np_lift.specs.CachedLift.{Standing, is_dropped, lift_cached, lifted};
ghost use Rattle.run_twins.specs.Twins as spec;
ghost use Rattle.run_twins.specs.Messengers.{IsTold, among};

use super::central::add_if;
use np_syntax::{Event, Kind, List, Made, Memory, Role};
use np_tables::Names;
use std::alloc::Global;

/// Whether the event is the landing of a post, one of the infrastructure, or the arrival of a messenger.
fn is_dropped(event: &Event, messengers: &Names) -> bool
    ensures { result ≡ is_dropped event.now.tag.role event.now.kind (set.contains messengers.now.members event.now.actor) }
{
    match (event.tag.role, event.kind) {
        (Role::Post, Kind::Land) | (Role::Infra, _) => true,
        (_, Kind::Arrive) => messengers.has(event.actor),
        _ => false,
    }
}

/// Whether an event of the sites is one of the source, where these are the messengers. One that it makes is one from now on.
fn is_lifted(event: &Event, messengers: &mut Names) -> Result<bool, Memory>
    ensures { IfOk result (λ told. (s : Standing) → IsTold s messengers.old.members messengers.new.members event.now told) }
{
    match (event.tag.role, event.kind, event.made) {
        (Role::Post, Kind::Agent, Made::Two(messenger, _)) => {
            messengers.insert(messenger)?;
            Ok(true)
        }
        (Role::Infra, Kind::Local, Made::One(_)) => Ok(false),
        (Role::Post, Kind::Send, _) => Ok(true),
        _ => Ok(!is_dropped(event, messengers)),
    }
}

/// The numbers of the events of the sites from which those of the source are read off.
pub fn cached_twins(alloc: Global, events: &[Event]) -> Result<List<u32>, Memory>
    requires { length events.now < 2 ^ 32 }
    ensures twins { IfOk result (λ made. made ≡ spec.cached_twins events.now) }
    ensures count { IfOk result (λ made. length made ≡ length (lift_cached events.now)) }
{
    let mut messengers = Names::new(alloc);
    let mut made = List::new(alloc);
    let mut at = 0u32;
    for event in events {
        let wanted = is_lifted(event, &mut messengers)?;
        add_if(&mut made, wanted, at)?;
        at += 1;
    }
    Ok(made)
}
