//! Whether an agent is idle, as its index tells it.

ghost use Rattle.std.specs.Prelude.{◌≡◌, ◌↔◌, IsTrue, IfNone, IfSome};
ghost use Rattle.agent_pool.specs.Calm.{NoOutput};
ghost use Rattle.agent_pool.specs.Idle.{IsIdle};
ghost use Rattle.agent_pool.specs.Resting.{Tells, TellsOn};

use super::held::{Held, wait_of};
use super::idle::{is_idle, is_output, waits_in};
use super::search::same;
use agent_index::{Index, Wait};
use np_code::Code;
use np_syntax::Name;

/// What the index tells of an atom: that it waits and nothing comes for it, that the agent is not idle, or neither.
pub enum Rest {
    Settled,
    Busy,
    Unknown,
}

/// An output that is filed under a channel: the one that waits longest.
fn giver(atoms: &Index<Held>, chan: Name) -> Option<Name>
    ensures { IfNone result (NoOutput atoms.now.items chan) }
{
    match atoms.waiting(chan) {
        Some(waiters) => waiters.first_output(),
        None => None,
    }
}

/// What the index tells of an input on a channel.
fn rest_on(code: &Code, atoms: &Index<Held>, chan: Name) -> Rest
    ensures { TellsOn code.now.processes atoms.now.items chan result }
{
    let Some(mark) = giver(atoms, chan) else {
        return Rest::Settled;
    };
    if is_output(waits_in(code, atoms, mark), chan) {
        Rest::Busy
    } else {
        Rest::Unknown
    }
}

/// What the index tells of the atom of a mark.
fn rest_of(code: &Code, atoms: &Index<Held>, mark: Name) -> Rest
    ensures { Tells code.now.processes atoms.now.items mark result }
{
    let Some(held) = atoms.get(mark) else {
        return Rest::Unknown;
    };
    let Some(wait) = atoms.wait(mark) else {
        return Rest::Unknown;
    };
    if !same(wait, wait_of(code, held)) {
        return Rest::Unknown;
    }
    match wait {
        Wait::Acts => Rest::Busy,
        Wait::Takes(chan) => rest_on(code, atoms, chan),
        Wait::Gives(_) => Rest::Settled,
        Wait::Stuck => Rest::Settled,
    }
}

/// Whether the agent is idle, if the index tells. It walks over the atoms once.
fn told_idle(code: &Code, atoms: &Index<Held>) -> Option<bool>
    ensures { IfSome result (λ idle. IsTrue idle ↔ IsIdle code.now.processes atoms.now.items) }
{
    for at in 0..atoms.len() {
        match rest_of(code, atoms, atoms.key(at)) {
            Rest::Settled => {}
            Rest::Busy => return Some(false),
            Rest::Unknown => return None,
        }
    }
    Some(true)
}

/// Whether each of the atoms waits, and no output and input are on one channel. Where all are filed by this code it walks
/// over the atoms once, and looks up each input's channel.
pub fn idle_in(code: &Code, atoms: &Index<Held>) -> bool
    ensures { IsTrue result ↔ IsIdle code.now.processes atoms.now.items }
{
    match told_idle(code, atoms) {
        Some(idle) => idle,
        None => is_idle(code, atoms),
    }
}
