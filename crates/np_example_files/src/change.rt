//! Changes of a list of events.

ghost use Rattle.std.specs.Prelude.{◌≡◌, ◌+◌, ◌<◌, ◌≤◌, ◌↔◌, IsTrue, Some, slice_get, insert, remove, swap, IfOk, MatchOption, length};
ghost use Rattle.std.specs.Prelude.{drop};
ghost use Rattle.np_example_files.specs.Changes as spec;
ghost use Rattle.np_example_files.specs.Changes.{AreAlike, FirstDeparture, HasNoEarlyPlace, HasNoNextOfActor, HasNoNextUnlike};
ghost use Rattle.np_example_files.specs.Changes.{HasNoSentPlace, IsArrivalOf, IsEarlyPlace, IsNextOfActor, IsNextUnlike, IsSentPlace};
ghost use Rattle.np_example_files.specs.Changes.{Latest};

use np_syntax::{Event, Kind, List, Memory, Name};
use std::alloc::Global;

/// How the history of a run is changed before it is replayed. All but the first are made at each place in turn.
#[derive(Clone, Copy, PartialEq, Eq)]
pub enum Change {
    /// Not at all.
    Whole,
    /// The event at the place and all behind it are left out.
    Cut,
    /// The event at the place is left out.
    Without,
    /// The event at the place changes places with the next one of the same actor, where the two are not alike.
    Swapped,
    /// The Arrive at the place is moved to where its agent has not yet departed.
    Early,
    /// The Land at the place is moved in front of the Send of its packet.
    Landed,
    /// Not at all, but the past of the line at the place, counted from 1, is asked for, and replayed.
    Past,
    /// Not at all, but a run on sites which a budget of that number cuts off is resumed.
    Resumed,
}

/// The events from one place to another.
pub fn between(events: &[Event], from: usize, to: usize) -> &[Event]
    ensures { result.now ≡ spec.between events.now from to }
{
    events.get(from..to).unwrap_or(&[])
}

/// The events from a place on.
fn from_place(events: &[Event], place: usize) -> &[Event]
    ensures { result.now ≡ drop place events.now }
{
    events.get(place..).unwrap_or(&[])
}

/// The events behind a place.
fn behind(events: &[Event], place: usize) -> &[Event]
    ensures { result.now ≡ drop (place + 1) events.now }
{
    from_place(events, place.saturating_add(1))
}

/// The event at a place alone.
fn at_place(events: &[Event], place: usize) -> &[Event]
    ensures { result.now ≡ spec.at_place events.now place }
{
    between(events, place, place.saturating_add(1))
}

/// The events but the one at a place.
pub fn without(alloc: Global, events: &[Event], place: usize) -> Result<List<Event>, Memory>
    ensures { IfOk result (λ others. others ≡ spec.without events.now place) }
{
    let mut others = List::from_slice(alloc, between(events, 0, place))?;
    others.append(behind(events, place))?;
    Ok(others)
}

/// The events with the one at the later place moved to the earlier.
pub fn moved(
    alloc: Global,
    events: &[Event],
    earlier: usize,
    later: usize,
) -> Result<List<Event>, Memory>
    ensures made { IfOk result (λ changed. changed ≡ spec.moved events.now earlier later) }
    ensures inserted { (event : Event) → earlier ≤ later → slice_get events.now later ≡ Some event
        → IfOk result (λ changed. changed ≡ insert (remove events.now later) earlier event) }
{
    let mut changed = List::from_slice(alloc, between(events, 0, earlier))?;
    changed.append(at_place(events, later))?;
    changed.append(between(events, earlier, later))?;
    changed.append(behind(events, later))?;
    Ok(changed)
}

/// The events with those at the two places exchanged.
pub fn exchanged(
    alloc: Global,
    events: &[Event],
    earlier: usize,
    later: usize,
) -> Result<List<Event>, Memory>
    ensures made { IfOk result (λ changed. changed ≡ spec.exchanged events.now earlier later) }
    ensures swapped { earlier < later → later < length events.now → IfOk result (λ changed. changed ≡ swap events.now earlier later) }
{
    let mut changed = List::from_slice(alloc, between(events, 0, earlier))?;
    changed.append(at_place(events, later))?;
    changed.append(between(events, earlier.saturating_add(1), later))?;
    changed.append(at_place(events, earlier))?;
    changed.append(behind(events, later))?;
    Ok(changed)
}

fn is_of_actor(event: &Event, actor: Name) -> bool
    ensures { IsTrue result ↔ (event.now.actor ≡ actor) }
{
    event.actor == actor
}

/// The place of the next event of the same actor.
fn next_of_actor(events: &[Event], place: usize) -> Option<usize>
    ensures { MatchOption result (HasNoNextOfActor events.now place) (IsNextOfActor events.now place) }
{
    let actor = events.get(place)?.actor;
    let rest = behind(events, place);
    for (ahead, later) in rest.iter().enumerate() {
        if is_of_actor(later, actor) {
            return Some(place + 1 + ahead);
        }
    }
    None
}

fn are_alike(one: &Event, other: &Event) -> bool
    ensures { IsTrue result ↔ (AreAlike one.now other.now) }
{
    one.kind == other.kind && one.tag == other.tag
}

/// The place of the next event of the same actor, where it has another kind or another tag.
pub fn next_unlike(events: &[Event], place: usize) -> Option<usize>
    ensures { MatchOption result (HasNoNextUnlike events.now place) (IsNextUnlike events.now place) }
{
    let later = next_of_actor(events, place)?;
    if are_alike(events.get(place)?, events.get(later)?) {
        None
    } else {
        Some(later)
    }
}

fn is_arrival_of(agent: Name, event: &Event) -> bool
    ensures { IsTrue result ↔ (IsArrivalOf agent event.now) }
{
    matches!(event.kind, Kind::Arrive) && is_of_actor(event, agent)
}

fn is_departure(event: &Event) -> bool
    ensures { IsTrue result ↔ (event.now.kind ≡ Kind.Depart) }
{
    matches!(event.kind, Kind::Depart)
}

/// That place before the next one, where it is this before a place.
fn departure_behind(
    events: &[Event],
    agent: Name,
    at: usize,
    departure: Option<usize>,
) -> Option<usize>
    requires place { at < length events.now }
    requires before { FirstDeparture events.now agent at departure }
    ensures { FirstDeparture events.now agent (at + 1) result }
{
    let event = events[at];
    if is_arrival_of(agent, &event) {
        None
    } else if departure.is_none() && is_departure(&event) {
        Some(at)
    } else {
        departure
    }
}

/// The place of the first Depart behind the last Arrive of the agent before a place.
fn first_departure(events: &[Event], agent: Name, place: usize) -> Option<usize>
    requires { place < length events.now }
    ensures { FirstDeparture events.now agent place result }
{
    let mut departure = None;
    for at in 0..place {
        departure = departure_behind(events, agent, at, departure);
    }
    departure
}

/// Where the event at the place is an Arrive: the place of the first Depart behind the last Arrive of the same agent before it.
/// There the agent is not under way.
pub fn early_place(events: &[Event], place: usize) -> Option<usize>
    ensures { MatchOption result (HasNoEarlyPlace events.now place) (IsEarlyPlace events.now place) }
{
    let arrival = events.get(place)?;
    match arrival.kind {
        Kind::Arrive => first_departure(events, arrival.actor, place),
        _ => None,
    }
}

/// The last event of the actor before the next place, where it is this before a place.
fn latest_behind(events: &[Event], actor: Name, at: usize, latest: Option<usize>) -> Option<usize>
    requires place { at < length events.now }
    requires before { Latest events.now actor at latest }
    ensures { Latest events.now actor (at + 1) result }
{
    if is_of_actor(&events[at], actor) {
        Some(at)
    } else {
        latest
    }
}

/// The place of the last event of the actor before a place.
fn latest_of_actor(events: &[Event], actor: Name, place: usize) -> Option<usize>
    requires { place < length events.now }
    ensures { Latest events.now actor place result }
{
    let mut latest = None;
    for at in 0..place {
        latest = latest_behind(events, actor, at, latest);
    }
    latest
}

/// Where the event at the place is a Land: the place of the last event of the same actor before it. In a run it is the Send of the packet.
pub fn sent_place(events: &[Event], place: usize) -> Option<usize>
    ensures { MatchOption result (HasNoSentPlace events.now place) (IsSentPlace events.now place) }
{
    let landing = events.get(place)?;
    match landing.kind {
        Kind::Land => latest_of_actor(events, landing.actor, place),
        _ => None,
    }
}
