ghost use Rattle.np_safety.specs.Laws.{KeepsTyped, RunsWellTyped, StartsTyped, StaysTyped, TypedIsWell, WellTyped};
ghost use Rattle.np_safety.specs.Low.{LowStartsTyped, LowWellTyped};

/// Each event keeps a configuration typed, and in a typed configuration no value of a wrong type is met: so it is
/// along each run from one, after each prefix of its events.
pub fn law_typed()
    ensures kept { KeepsTyped }
    ensures well { TypedIsWell }
    ensures along { StaysTyped }
{}

/// A resolved program without a fault is typed at its start, and so after each prefix of each of its runs: no value of
/// a wrong type is ever met.
pub fn law_well_typed()
    ensures start { StartsTyped }
    ensures along { WellTyped }
{}

/// The same of a low program, where neither main's process nor the daemon's has a fault under the types of the
/// infrastructure's channels.
pub fn law_low_well_typed()
    ensures start { LowStartsTyped }
    ensures along { LowWellTyped }
{}

/// The high start of a resolved program without a fault can run: it meets the condition of the serial run.
pub fn law_runs_well()
    ensures { RunsWellTyped }
{}
