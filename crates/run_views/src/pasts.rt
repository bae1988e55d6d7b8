//! The causal past of a printed value.

ghost use Rattle.std.specs.Prelude.{◌<◌, ◌^◌, length, IsSome, IfOk, slice_get};
ghost use Rattle.np_calculus.specs.Reductions.{run};
ghost use Rattle.np_calculus.specs.Starts.{start_high, start_low};
ghost use Rattle.run_views.specs.Past.{IsPastOf};
ghost use Rattle.run_views.specs.Pasts.{IsPrint, IsPastRun};

use super::marking::{mark_back, marked_events};
use super::tracing::find_causes;
use np_configuration::{Cfg, start_high, start_low};
use np_syntax::{Event, List, LowProgram, Memory, Program};
use std::alloc::Global;

/// The events of a run that led to the Print at a place, in their order: with it those that wrote last what it touches, with
/// each of these those that wrote last what that touches, and so on. It takes time linear in the place, up to hashing.
pub fn past(
    alloc: Global,
    low: &LowProgram,
    events: &[Event],
    index: u32,
) -> Result<List<Event>, Memory>
    requires sites { length low.now.sites < 2 ^ 32 }
    requires run { IsSome (run (start_low low.now) events.now) }
    requires print { IsPrint (slice_get events.now index) }
    ensures { IfOk result (IsPastRun low.now events.now index) }
{
    match start_low(alloc, low) {
        Ok(mut start) => {
            let led = past_on(alloc, &mut start, events, index as usize);
            drop(start);
            led
        }
        Err(memory) => Err(memory),
    }
}

/// The same of a run of a program of the high level.
pub fn past_high(
    alloc: Global,
    p: &Program,
    events: &[Event],
    index: u32,
) -> Result<List<Event>, Memory>
    requires sites { length p.now.sites < 2 ^ 32 }
    requires run { IsSome (run (start_high p.now) events.now) }
    requires print { IsPrint (slice_get events.now index) }
    ensures { IfOk result (IsPastOf (start_high p.now) events.now index) }
{
    match start_high(alloc, p) {
        Ok(mut start) => {
            let led = past_on(alloc, &mut start, events, index as usize);
            drop(start);
            led
        }
        Err(memory) => Err(memory),
    }
}

/// The past of a place of a run that goes on from a configuration.
fn past_on(
    alloc: Global,
    reached: &mut Cfg,
    events: &[Event],
    index: usize,
) -> Result<List<Event>, Memory>
    requires run { IsSome (run reached.old events.now) }
    requires within { index < length events.now }
    requires fits { index < 2 ^ 32 }
    ensures { IfOk result (IsPastOf reached.old events.now index) }
{
    let found = find_causes(alloc, reached, events, index + 1)?;
    let marked = mark_back(alloc, found.as_slice(), index)?;
    marked_events(alloc, events, marked.as_slice())
}
