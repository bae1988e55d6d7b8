//! The low program of a source, and what is read off its events.

ghost use Rattle.std.specs.Prelude.{◌≡◌, IfOk};
ghost use Rattle.np_calculus.specs.Runs.{RunsWell};
ghost use Rattle.np_calculus.specs.Starts.{start_low};
ghost use Rattle.look_sources.specs.Lifts.{AreTwins};
ghost use Rattle.np_on_sites.specs.ByInfrastructure.{lift_by, low_by};

use cache_encode::{encode_cached, law_cached_runs_well};
use daemon_encode::{encode, law_low_runs_well};
use np_check::Checked;
use np_lift::lift_cached;
use np_syntax::{Event, List, LowProgram, Memory};
use np_verdict::Refusal;
use np_words::Infrastructure;
use run_merge::lift;
use run_pictures::MOST_STEPS;
use run_twins::{cached_twins, twins};
use std::alloc::Global;

/// The low program of a source.
pub fn lowered(
    alloc: Global,
    infrastructure: Infrastructure,
    checked: &Checked,
) -> Result<LowProgram, Memory>
    ensures gives { IfOk result (λ low. low ≡ low_by infrastructure checked.now) }
    ensures runs { IfOk result (λ low. RunsWell (start_low low) low.at) }
{
    law_low_runs_well();
    law_cached_runs_well();
    let _ = checked.program();
    match infrastructure {
        Infrastructure::Central => encode(alloc, checked),
        Infrastructure::Cache => encode_cached(alloc, checked),
    }
}

/// The events of the source that are read off events.
pub fn lifted_by(
    alloc: Global,
    infrastructure: Infrastructure,
    events: &[Event],
) -> Result<List<Event>, Memory>
    ensures { IfOk result (λ lifted. lifted ≡ lift_by infrastructure events.now) }
{
    match infrastructure {
        Infrastructure::Central => lift(alloc, events),
        Infrastructure::Cache => lift_cached(alloc, events),
    }
}

/// The numbers of the events from which those of the source are read off.
pub fn twins_by(
    alloc: Global,
    infrastructure: Infrastructure,
    events: &[Event],
) -> Result<List<u32>, Refusal>
    ensures { IfOk result (AreTwins infrastructure events.now) }
{
    if MOST_STEPS < events.len() {
        return Err(Refusal::TooManyEvents);
    }
    let made = match infrastructure {
        Infrastructure::Central => twins(alloc, events),
        Infrastructure::Cache => cached_twins(alloc, events),
    };
    match made {
        Ok(twins) => Ok(twins),
        Err(Memory) => Err(Refusal::Memory),
    }
}
