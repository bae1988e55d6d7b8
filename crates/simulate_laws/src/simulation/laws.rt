ghost use Rattle.infrastructure_texts.specs.Infrastructures.{Infrastructure};
ghost use Rattle.simulate_laws.specs.simulation.Laws.{CentralRunsAreLifted, RunsAreLifted, RunsAreLodged};

/// From the low start of an accepted program each run leads to a configuration with the same printed values as the one to
/// which the lifted run leads from the high start, and the two are coupled. The infrastructure is the central one.
pub fn law_runs_are_lifted()
    ensures { CentralRunsAreLifted }
{}

/// The same of each infrastructure, over the list that is read off with caches and messengers: marks stand for others at the end as they do
/// after that list.
pub fn law_cached_runs_are_lifted()
    ensures { (i : Infrastructure) → RunsAreLifted i }
{}

/// After each run from the low start of an accepted program each atom's agent has a place.
pub fn law_runs_are_lodged()
    ensures { (i : Infrastructure) → RunsAreLodged i }
{}
