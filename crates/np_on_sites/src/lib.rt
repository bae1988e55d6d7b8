//! A low program on its sites, and what such a run is of its source.
//!
//! `run_on_sites` keeps the histories of a run of the low program, and how it ended: at rest exactly if no site can act, else
//! with its budget spent, and then each site that can still act has used its budget. Of an accepted source, by each
//! infrastructure (`ByInfrastructure`): no value of a wrong type is met, the list that is read off is a run of the source
//! that prints the same, each location-independent message was handed over at most once, the letter of one that was not is in
//! its one place, and if the low level rests the high level rests, each was handed over, and the locks of the daemon are
//! free. A run that goes on from saved events begins with them. The calls ask for `Wait`, since those of inboxes may.
//!
//! Contracts: `run_on_sites` (`IsSitesRun`), `redo_on_sites` (`IsToGoOn`), `resume_on_sites` (`IsResumed`), `law_source_runs`
//! (`IsRunOfSource`), `law_low_runs_safely`.
#![tactic(auto)]

mod beginning;
mod laws;
mod record;
mod running;

pub use laws::{law_low_runs_safely, law_source_runs};
pub use record::Record;
pub use running::{redo_on_sites, resume_on_sites, run_on_sites};
pub use site_crew::FollowFail;
pub use site_turn::{Free, Gate};
