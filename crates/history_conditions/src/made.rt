//! Conditions on the names that are made.

ghost use Rattle.std.specs.Prelude.{◌≡◌, IfOk, cond, nat_eq, nat_lt};
ghost use Rattle.std.specs.FinSet as set;
ghost use Rattle.std.specs.List.{list_any};
ghost use Rattle.np_calculus.specs.Seen.{is_at};
ghost use Rattle.np_calculus.specs.Starts.{own_numbers};
ghost use Rattle.history_conditions.specs.Born.{IsReached, is_made, is_made_in, is_own};
ghost use Rattle.history_conditions.specs.Conditions.{asked_agent, first_of, is_as_wanted, is_new};
ghost use Rattle.history_conditions.specs.Conditions.{names_differ, names_wanted, second_of, some_and};

use np_configuration::Cfg;
use np_eval::{agent_of, as_iflocal};
use np_syntax::{Event, Kind, Made, Memory, Name};
use std::alloc::Global;

/// Whether an event makes a name.
pub fn makes(made: Made, name: Name) -> bool
    ensures { result ≡ is_made made name }
{
    match made {
        Made::Nothing => false,
        Made::One(first) => name == first,
        Made::Two(first, second) => name == second || name == first,
    }
}

/// The names that an event makes, if it makes them.
pub fn made_names(made: Made) -> (Option<Name>, Option<Name>)
    ensures { result ≡ (first_of made, second_of made) }
{
    match made {
        Made::Nothing => (None, None),
        Made::One(first) => (Some(first), None),
        Made::Two(first, second) => (Some(first), Some(second)),
    }
}

/// The agent of whom the atom of an event asks.
pub fn asked_agent(alloc: Global, reached: &Cfg, event: &Event) -> Result<Option<Name>, Memory>
    ensures { IfOk result (λ asked. asked ≡ asked_agent reached.now event.now) }
{
    let Some(atom) = reached.atom(event.actor) else {
        return Ok(None);
    };
    let Some((agent, _, _, _, _)) = as_iflocal(&atom.proc) else {
        return Ok(None);
    };
    agent_of(alloc, agent, &atom.env)
}

/// How many names the row of a location test makes, where it asks of an agent.
fn local_names(reached: &Cfg, event: &Event, asked: Option<Name>) -> u32
    ensures { result ≡ cond (some_and asked (λ agent. is_at reached.now agent event.now.site)) 1 0 }
{
    let Some(agent) = asked else {
        return 0;
    };
    if reached.is_at(agent, event.site) {
        1
    } else {
        0
    }
}

/// How many names the row of an event makes.
pub fn names_wanted(alloc: Global, reached: &Cfg, event: &Event) -> Result<u32, Memory>
    ensures { IfOk result (λ wanted. wanted ≡ names_wanted event.now.kind reached.now event.now) }
{
    match event.kind {
        Kind::Fork | Kind::New => Ok(1),
        Kind::Agent => Ok(2),
        Kind::Local => match asked_agent(alloc, reached, event) {
            Ok(asked) => Ok(local_names(reached, event, asked)),
            Err(memory) => Err(memory),
        },
        _ => Ok(0),
    }
}

/// Whether there is a name exactly where one is wanted.
fn is_as_wanted(wanted: bool, name: Option<Name>) -> bool
    ensures { result ≡ is_as_wanted wanted name }
{
    if wanted {
        name.is_some()
    } else {
        name.is_none()
    }
}

/// Whether an event makes the name of a place, counted from 0, exactly where its row does.
pub(super) fn makes_at(
    alloc: Global,
    reached: &Cfg,
    event: &Event,
    place: u32,
    name: Option<Name>,
) -> Result<bool, Memory>
    ensures { IfOk result (λ met. met ≡ is_as_wanted (nat_lt place (names_wanted event.now.kind reached.now event.now)) name) }
{
    let wanted = names_wanted(alloc, reached, event)?;
    Ok(is_as_wanted(place < wanted, name))
}

/// Whether two names that an event makes differ.
pub(super) fn names_differ(made: Made) -> bool
    ensures { result ≡ names_differ made }
{
    match made {
        Made::Two(first, second) => first != second,
        _ => true,
    }
}

/// Whether one of the events makes a name.
fn is_made_in(events: &[Event], name: Name) -> bool
    ensures { result ≡ is_made_in events.now name }
{
    for event in events {
        if makes(event.made, name) {
            return true;
        }
    }
    false
}

/// Whether a program has a name of its own of this number.
fn is_own_number(n: u32) -> bool
    ensures { result ≡ list_any (nat_eq n) own_numbers }
{
    matches!(
        n,
        0 | 1 | 2 | 3 | 4 | 5 | 6 | 7 | 8 | 9 | 10 | 11 | 12 | 13 | 14 | 15 | 16
    )
}

/// Whether a program of so many sites has a name from the start.
fn is_own(sites: u32, name: Name) -> bool
    ensures { result ≡ is_own sites name }
{
    name.site == sites && is_own_number(name.n)
}

/// Whether a name is born behind a run of a low program.
fn is_born(before: &[Event], reached: &Cfg, name: Name) -> bool
    requires { IsReached before.now reached.now }
    ensures { result ≡ set.contains reached.now.born name }
{
    is_made_in(before, name) || is_own(reached.sites(), name)
}

/// Whether a name, if there is one, is not born behind a run of a low program.
pub(super) fn is_new(before: &[Event], reached: &Cfg, name: Option<Name>) -> bool
    requires { IsReached before.now reached.now }
    ensures { result ≡ is_new reached.now.born name }
{
    match name {
        Some(name) => !is_born(before, reached, name),
        None => true,
    }
}
