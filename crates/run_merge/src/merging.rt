ghost use Rattle.std.specs.Prelude.{◌≡◌, ◌++◌, map, IfOk, OnOk};
ghost use Rattle.std.specs.List.{flat_map};
ghost use Rattle.run_merge.specs.Merged.{events_of, merged, items, past, shown};

use super::rank::{Rank, Ranked};
use super::sorting::sort;
use np_syntax::{Event, List, Memory};
use stamp_history::History;
use std::alloc::Global;

/// All events of the histories in order of their stamps, and where stamps are equal of the numbers of their sites. The laws
/// of merged histories ask that no two histories have one site. Where two have, and stamps are equal too, the events of the
/// earlier history come first.
pub fn merge(alloc: Global, histories: &[History]) -> Result<List<Event>, Memory>
    ensures { IfOk result (λ events. events ≡ items (merged (past histories.now))) }
{
    let mut ranked = ranked_events(alloc, histories)?;
    sort(&mut ranked)?;
    copied(alloc, ranked.as_slice())
}

/// The events of each history in turn.
fn ranked_events<'a>(
    alloc: Global,
    histories: &'a [History],
) -> Result<Vec<Ranked<&'a Event>>, Memory>
    ensures { IfOk result (λ all. map shown all.items ≡ flat_map events_of (past histories.now)) }
{
    let mut ranked = Vec::new(alloc);
    for history in histories {
        add_events(&mut ranked, history)?;
    }
    Ok(ranked)
}

/// Appends the events of a history.
fn add_events<'a>(ranked: &mut Vec<Ranked<&'a Event>>, history: &'a History) -> Result<(), Memory>
    ensures { OnOk result (map shown ranked.new.items ≡ map shown ranked.old.items ++ events_of history.now.history) }
{
    let site = history.site();
    for stamped in history.events() {
        let stamp = stamped.stamp;
        ranked.push(Ranked {
            rank: Rank { stamp, site },
            item: &stamped.event,
        })?;
    }
    Ok(())
}

/// Copies of the events.
fn copied(alloc: Global, ranked: &[Ranked<&Event>]) -> Result<List<Event>, Memory>
    ensures { IfOk result (λ events. events ≡ map (λ one. one.item.now) ranked.now) }
{
    let mut events = List::new(alloc);
    events.reserve(ranked.len())?;
    for one in ranked {
        events.add(*one.item)?;
    }
    Ok(events)
}
