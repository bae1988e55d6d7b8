//! A run of a compiled program whose infrastructure has caches, at the high level.

ghost use Rattle.std.specs.Prelude.{IfOk};
ghost use Rattle.np_calculus.specs.Reductions.{run};
ghost use Rattle.np_calculus.specs.Starts.{start_low};
ghost use Rattle.np_calculus.specs.Well.{Has};
ghost use Rattle.cache_encode.specs.Encoded.{encoded_cached};
ghost use Rattle.simulate_laws.specs.Cached.{ShowsCached};

use super::following::follow;
use np_check::Checked;
use np_configuration::{Cfg, start_high};
use np_lift::lift_cached;
use np_syntax::{Event, Memory};
use std::alloc::Global;

/// The configuration to which the lifted events lead from the high start, where the events are a run of the compiled
/// program with caches. The run of that has printed the same, has handed over each of its posts once at most, and
/// each that it has not handed over stands on one thing: a packet, or an atom of the daemon, of the letter's agent or
/// of a messenger. Where it is at rest, no site can act at the high level, each post was handed over once, and the
/// daemon's lock, the agents' locks, the caches and the hints are free.
pub fn law_cached(alloc: Global, program: &Checked, events: &[Event]) -> Result<Cfg, Memory>
    requires run { Has (run (start_low (encoded_cached program.now)) events.now) }
    ensures { IfOk result (ShowsCached program.now events.now) }
{
    let lifted = lift_cached(alloc, events)?;
    let start = start_high(alloc, program.program())?;
    follow(alloc, start, lifted.as_slice())
}
