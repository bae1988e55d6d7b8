//! The causes of the events of a run.

ghost use Rattle.std.specs.Prelude.{◌≤◌, ◌^◌, length, IsSome, IfOk};
ghost use Rattle.np_calculus.specs.Reductions.{apply, run};
ghost use Rattle.run_views.specs.Past.{traces};
ghost use Rattle.run_views.specs.Causes.{AreCauses, IsTraced, index_of};

use super::causing::{Causes, Writers};
use super::touching::{touched_by, written_by};
use super::turning::turn;
use np_configuration::Cfg;
use np_syntax::{Event, List, Memory};
use std::alloc::Global;

/// Makes an event that is enabled, which stands at this place of the run, and finds its causes.
fn trace(
    alloc: Global,
    reached: &mut Cfg,
    writers: &mut Writers,
    place: u32,
    event: &Event,
) -> Result<Causes, Memory>
    requires { IsSome (apply reached.old event.now) }
    ensures { IfOk result (IsTraced reached.old reached.new (index_of writers.old) (index_of writers.new) place event.now) }
{
    let touched = touched_by(alloc, reached, event)?;
    let found = writers.causes(&touched);
    let written = written_by(reached, event);
    writers.note(place, &written)?;
    turn(alloc, reached, event)?;
    Ok(found)
}

/// The causes of each of the first events of a run, so many.
pub(super) fn find_causes(
    alloc: Global,
    reached: &mut Cfg,
    events: &[Event],
    count: usize,
) -> Result<List<Causes>, Memory>
    requires run { IsSome (run reached.old events.now) }
    requires within { count ≤ length events.now }
    requires fits { count ≤ 2 ^ 32 }
    ensures { IfOk result (AreCauses (traces reached.old events.now) count) }
{
    let mut writers = Writers::new(alloc);
    let mut found = List::new(alloc);
    for place in 0..count {
        let causes = trace(alloc, reached, &mut writers, place as u32, &events[place])?;
        found.add(causes)?;
    }
    Ok(found)
}
