//! The marking of the places of a past.

ghost use Rattle.std.specs.Prelude.{◌≡◌, ◌∷◌, ◌++◌, ◌+◌, ◌<◌, ◌≤◌, [], true, false, ℕ, length, replicate, IfOk};
ghost use Rattle.run_views.specs.Index.{IsOneOf};
ghost use Rattle.run_views.specs.Past.{picked};
ghost use Rattle.run_views.specs.Causes.{AreBefore, AreMarked, is_marked, places_of, with_mark, with_marks};

use super::causing::Causes;
use np_syntax::{Event, List, Memory};
use std::alloc::Global;

/// Marks a place and its causes, and those of each that is marked, going back from the place.
pub(super) fn mark_back(alloc: Global, found: &[Causes], index: usize) -> Result<List<bool>, Memory>
    requires count { length found.now ≡ index + 1 }
    requires before { AreBefore found.now }
    ensures { IfOk result (AreMarked found.now index 0) }
{
    let mut marked = last_marked(alloc, index)?;
    for place in (0..found.len()).rev() {
        if marked.as_slice()[place] {
            mark_all(&mut marked, &found[place]);
        }
    }
    Ok(marked)
}

/// So many places without a mark, and then one with a mark.
fn last_marked(alloc: Global, index: usize) -> Result<List<bool>, Memory>
    ensures { IfOk result (λ marked. marked ≡ replicate index false ++ true ∷ []) }
{
    let mut marked = List::new(alloc);
    for _place in 0..index {
        marked.add(false)?;
    }
    marked.add(true)?;
    Ok(marked)
}

/// Marks the causes of an event.
fn mark_all(marked: &mut List<bool>, causes: &Causes)
    requires { (k : ℕ) → IsOneOf k (places_of causes.now) → k < length marked.old }
    ensures { marked.new ≡ with_marks marked.old (places_of causes.now) }
{
    mark(marked, causes.actor);
    mark(marked, causes.other);
    mark(marked, causes.agent);
    mark(marked, causes.asked);
}

/// Marks a place, if there is one.
fn mark(marked: &mut List<bool>, place: Option<u32>)
    requires { (k : ℕ) → place ≡ Some k → k < length marked.old }
    ensures { marked.new ≡ with_mark marked.old place }
{
    if let Some(place) = place {
        marked.set(place as usize, true);
    }
}

/// The events at the places that are marked.
pub(super) fn marked_events(
    alloc: Global,
    events: &[Event],
    marked: &[bool],
) -> Result<List<Event>, Memory>
    requires { length marked.now ≤ length events.now }
    ensures { IfOk result (λ made. made ≡ picked (is_marked marked.now) 0 events.now) }
{
    let mut made = List::new(alloc);
    for place in 0..marked.len() {
        if marked[place] {
            made.add(events[place])?;
        }
    }
    Ok(made)
}
