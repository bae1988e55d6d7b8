//! The causes of each event of a run.

ghost use Rattle.std.specs.Prelude.{◌<◌, ◌^◌, length, IsSome, IfOk};
ghost use Rattle.np_calculus.specs.Reductions.{run};
ghost use Rattle.np_calculus.specs.Starts.{start_high, start_low};
ghost use Rattle.run_views.specs.Causes.{AreCauses};
ghost use Rattle.run_views.specs.Past.{traces};

use super::causing::Causes;
use super::tracing::find_causes;
use np_configuration::{start_high, start_low};
use np_syntax::{Event, List, LowProgram, Memory, Program};
use std::alloc::Global;

/// Of each event of a run of a low program the places of those that wrote last what it touches.
pub fn causes_low(alloc: Global, low: &LowProgram, events: &[Event]) -> Result<List<Causes>, Memory>
    requires sites { length low.now.sites < 2 ^ 32 }
    requires run { IsSome (run (start_low low.now) events.now) }
    requires count { length events.now < 2 ^ 32 }
    ensures { IfOk result (AreCauses (traces (start_low low.now) events.now) (length events.now)) }
{
    match start_low(alloc, low) {
        Ok(mut start) => {
            let found = find_causes(alloc, &mut start, events, events.len());
            drop(start);
            found
        }
        Err(memory) => Err(memory),
    }
}

/// The same of a run of a program of the high level.
pub fn causes_high(alloc: Global, p: &Program, events: &[Event]) -> Result<List<Causes>, Memory>
    requires sites { length p.now.sites < 2 ^ 32 }
    requires run { IsSome (run (start_high p.now) events.now) }
    requires count { length events.now < 2 ^ 32 }
    ensures { IfOk result (AreCauses (traces (start_high p.now) events.now) (length events.now)) }
{
    match start_high(alloc, p) {
        Ok(mut start) => {
            let found = find_causes(alloc, &mut start, events, events.len());
            drop(start);
            found
        }
        Err(memory) => Err(memory),
    }
}
