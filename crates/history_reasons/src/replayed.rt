//! Events that are no run.

ghost use Rattle.std.specs.Prelude.{◌≡◌, ◌<◌, ◌^◌, ◌↔◌, length, slice_get, IfOk, IsSome};
ghost use Rattle.history_conditions.specs.Born.{IsReached};
ghost use Rattle.history_conditions.specs.Conditions.{first_unmet};
ghost use Rattle.history_reasons.specs.Unmet.{IsFailing, IsUnmetIn};

use super::field::place_of;
use super::layout::{Layout, range_of};
use super::names::{Seen, Wrong};
use super::telling::told_of;
use history_conditions::{Condition, EventField, Moment, field_of, unmet};
use np_serial::{ReplayFail, replay};
use np_syntax::{Event, List, LowProgram, Memory};
use source_places::{Reasons, marked};
use std::alloc::Global;

/// An event that fails a condition: the condition, and the field of the event's line that it is about.
#[derive(Clone, Copy)]
pub struct Failing {
    pub condition: Condition,
    pub field: EventField,
}

/// The first condition that an event fails behind others, and its field.
fn find_failing(moment: Moment<'_>, event: &Event) -> Result<Option<Failing>, Memory>
    requires { IsReached moment.before.now moment.reached.now }
    ensures { IfOk result (λ found. IsFailing moment.entry.reached.now event.now found) }
{
    match unmet(moment, event)? {
        Some(condition) => Ok(Some(Failing {
            condition,
            field: field_of(condition),
        })),
        None => Ok(None),
    }
}

/// What is told of the event that is seen, where it fails a condition: it is marked at the field of the condition.
fn reasons_of(
    seen: Seen<'_>,
    bytes: &[u8],
    event: &Event,
    failing: Failing,
) -> Result<Reasons, Memory> {
    let Wrong {
        label,
        wanted,
        next,
    } = told_of(seen, event, failing.condition)?;
    let range = range_of(bytes, seen.layout, seen.index, place_of(failing.field));
    Ok(Reasons {
        refused: Some(marked(range, range.from, label)),
        beside: None,
        wanted,
        why: List::new(seen.alloc),
        next,
    })
}

/// What is told of an event that is seen, where it fails a condition.
fn told_at(
    seen: Seen<'_>,
    bytes: &[u8],
    before: &[Event],
    event: &Event,
) -> Result<Option<Reasons>, Memory>
    requires { IsReached before.now seen.reached.now }
    ensures { IfOk result (λ found. IsSome found ↔ IsSome (first_unmet seen.entry.reached.now event.now)) }
{
    let moment = Moment {
        alloc: seen.alloc,
        before,
        reached: seen.reached,
    };
    match find_failing(moment, event)? {
        Some(failing) => Ok(Some(reasons_of(seen, bytes, event, failing)?)),
        None => Ok(None),
    }
}

/// The event of an index.
fn event_at(events: &[Event], index: usize) -> &Event
    requires { index < length events.now }
    ensures { slice_get events.now index ≡ Some result.now }
{
    &events[index]
}

/// What is told of the event of an index, behind which events are no run of a low program. Something is told exactly where the
/// events before it are a run and the event fails a condition there.
pub fn not_a_run(
    alloc: Global,
    low: &LowProgram,
    bytes: &[u8],
    layout: Layout,
    events: &[Event],
    index: usize,
) -> Result<Option<Reasons>, Memory>
    requires sites { length low.now.sites < 2 ^ 32 }
    requires events { length events.now < 2 ^ 32 }
    ensures { IfOk result (λ found. IsUnmetIn low.now events.now index found) }
{
    if events.len() <= index {
        return Ok(None);
    }
    let (front, _) = events.split_at(index);
    match replay(alloc, low, front) {
        Ok(reached) => {
            let seen = Seen {
                alloc,
                sites: low.sites.as_slice(),
                events,
                layout,
                index,
                reached: &reached,
            };
            let reasons = told_at(seen, bytes, front, event_at(events, index));
            drop(reached);
            reasons
        }
        Err(ReplayFail::Memory) => Err(Memory),
        Err(ReplayFail::NotARun(_)) => Ok(None),
    }
}
