//! Twins with the central infrastructure.

ghost use Rattle.std.specs.Prelude.{◌≡◌, ◌++◌, ◌<◌, ◌^◌, is_some, length, IfOk, OnOk};
ghost use Rattle.np_lift.specs.Lift.{lift, lifted};
ghost use Rattle.run_twins.specs.Twins as spec;

use np_syntax::{Event, Kind, List, Memory, Role};
use std::alloc::Global;

/// Whether an event of the sites is one of the source.
fn is_lifted(event: &Event) -> bool
    ensures { result ≡ is_some (lifted event.now) }
{
    match (event.tag.role, event.kind) {
        (Role::Infra, _) | (Role::Post, Kind::Land) => false,
        _ => true,
    }
}

/// Adds a number if that is wanted.
pub(super) fn add_if(list: &mut List<u32>, wanted: bool, at: u32) -> Result<(), Memory>
    ensures { OnOk result (list.new ≡ list.old ++ spec.one_if wanted at) }
{
    if wanted { list.add(at) } else { Ok(()) }
}

/// The numbers of the events of the sites from which those of the source are read off.
pub fn twins(alloc: Global, events: &[Event]) -> Result<List<u32>, Memory>
    requires { length events.now < 2 ^ 32 }
    ensures twins { IfOk result (λ made. made ≡ spec.twins events.now) }
    ensures count { IfOk result (λ made. length made ≡ length (lift events.now)) }
{
    let mut made = List::new(alloc);
    let mut at = 0u32;
    for event in events {
        add_if(&mut made, is_lifted(event), at)?;
        at += 1;
    }
    Ok(made)
}
