//! A run of a compiled program that ends at rest, at the high level.

ghost use Rattle.std.specs.Prelude.{IfOk};
ghost use Rattle.simulate_laws.specs.Lifted.{EndsAtRest, ShowsRest};

use super::lifting::law_lift;
use np_check::Checked;
use np_configuration::Cfg;
use np_syntax::{Event, Memory};
use std::alloc::Global;

/// The configuration to which the lifted events lead from the high start, where the events are a run of the compiled
/// program that ends at rest. No site can act there, each post was handed over once, and the daemon's lock and the agents'
/// locks are free.
pub fn law_rest(alloc: Global, program: &Checked, events: &[Event]) -> Result<Cfg, Memory>
    requires run { EndsAtRest program.now events.now }
    ensures { IfOk result (ShowsRest program.now events.now) }
{
    let _ = program.program();
    law_lift(alloc, program, events)
}
