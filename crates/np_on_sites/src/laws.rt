ghost use Rattle.np_on_sites.specs.Safe.{LowRunsSafely};
ghost use Rattle.np_on_sites.specs.SourceRuns.{RunsAreSourceRuns, SitesRunsAreSourceRuns};

use cache_encode::{law_cached_runs_well, law_cached_translates};
use daemon_encode::{law_low_runs_well, law_translates};
use simulate_laws::levels::law_roles;
use simulate_laws::simulation::{
    law_all_handed, law_cached_runs_are_lifted, law_one_place, law_posts_are_paired,
    law_rests_together, law_runs_are_lifted,
};

/// By each infrastructure: along a run of the low program of an accepted source no value of a wrong type is met. The events that
/// are read off it are a run of the source that prints the same, and where the low level is at rest, the high level is. Each
/// message to an agent wherever it is was handed over once at most, or its letter is in its one place; at rest each was handed
/// over, and the locks of the daemon are free. So it is with the merged histories of a run on sites.
pub fn law_source_runs()
    ensures runs { RunsAreSourceRuns }
    ensures sites { SitesRunsAreSourceRuns }
{
    law_translates();
    law_cached_translates();
    law_low_runs_well();
    law_cached_runs_well();
    law_runs_are_lifted();
    law_cached_runs_are_lifted();
    law_rests_together();
    law_posts_are_paired();
    law_one_place();
    law_all_handed();
}

/// By each infrastructure: no run of the low program of an accepted source meets a value of a wrong type, or makes a post as the
/// high level does.
pub fn law_low_runs_safely()
    ensures { LowRunsSafely }
{
    law_translates();
    law_cached_translates();
    law_low_runs_well();
    law_cached_runs_well();
    law_roles();
    law_cached_runs_are_lifted();
}
