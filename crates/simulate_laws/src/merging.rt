//! The merged histories of sites, as one run of the low program.

ghost use Rattle.std.specs.Prelude.{◌≡◌, ◌<◌, ◌^◌, Some, IfOk, length};
ghost use Rattle.np_calculus.specs.Reductions.{run};
ghost use Rattle.np_calculus.specs.Starts.{start_low};
ghost use Rattle.np_calculus.specs.Well.{Has, WellAlong};
ghost use Rattle.np_safety.specs.Low.{IsFaultless};
ghost use Rattle.run_merge.specs.Merged.{items, merged, past};

use super::following::follow;
use np_configuration::{Cfg, start_low};
use np_safety::law_low_well_typed;
use np_syntax::{LowProgram, Memory};
use run_merge::merge;
use stamp_history::History;
use std::alloc::Global;

/// The configuration to which the merged histories lead from the low start, where they are a run of the low program. Where this has no
/// fault, no value of a wrong type is met after any of the events.
pub fn law_merge(alloc: Global, low: &LowProgram, histories: &[History]) -> Result<Cfg, Memory>
    requires sites { length low.now.sites < 2 ^ 32 }
    requires run { Has (run (start_low low.now) (items (merged (past histories.now)))) }
    ensures last { IfOk result (λ last. run (start_low low.now) (items (merged (past histories.now))) ≡ Some last) }
    ensures well { IsFaultless low.now → WellAlong (start_low low.now) (items (merged (past histories.now))) }
{
    law_low_well_typed();
    let events = merge(alloc, histories)?;
    let start = start_low(alloc, low)?;
    follow(alloc, start, events.as_slice())
}
