//! A run of a compiled program, at the high level.

ghost use Rattle.std.specs.Prelude.{IfOk};
ghost use Rattle.np_calculus.specs.Reductions.{run};
ghost use Rattle.np_calculus.specs.Starts.{start_low};
ghost use Rattle.np_calculus.specs.Well.{Has};
ghost use Rattle.daemon_encode.specs.Encoded.{encoded};
ghost use Rattle.simulate_laws.specs.Lifted.{ShowsHigh};

use super::following::follow;
use np_check::Checked;
use np_configuration::{Cfg, start_high};
use np_syntax::{Event, Memory};
use run_merge::lift;
use std::alloc::Global;

/// The configuration to which the lifted events lead from the high start, where the events are a run of the compiled
/// program. The run of that has printed the same, and has handed over each of its posts once at most. The letter of each
/// that it has not handed over is in its one place.
pub fn law_lift(alloc: Global, program: &Checked, events: &[Event]) -> Result<Cfg, Memory>
    requires run { Has (run (start_low (encoded program.now)) events.now) }
    ensures { IfOk result (ShowsHigh program.now events.now) }
{
    let lifted = lift(alloc, events)?;
    let start = start_high(alloc, program.program())?;
    follow(alloc, start, lifted.as_slice())
}
