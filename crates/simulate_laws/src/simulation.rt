//! The simulation along whole runs, rest at the two levels, and the posts of a run. Laws only.
//!
//! From the low start of an accepted program the list that is read off each run is a run from the high start that has printed
//! the same, and the two ends are coupled, by either infrastructure. Where no site can act at the low level, none can at the
//! high level; no agent has an *affair* (a registration, creation or move in progress with the daemon), the daemon's lock and
//! that of each agent are free (`HasFreeLocks`), and no letter is under way; with caches each agent's cache and its hints are
//! free, and no messenger carries a letter. Each post is handed over once at most, and before the next one of its mark; until
//! then its letter is in one place of the low configuration (`IsPlace`); at rest each was handed over.
//!
//! Contracts: `law_runs_are_lifted`, `law_cached_runs_are_lifted`, `law_runs_are_lodged`, `law_rests_together`,
//! `law_posts_are_paired`, `law_one_place`, `law_all_handed`.

mod laws;
mod post_laws;
mod rest_laws;

pub use laws::{law_cached_runs_are_lifted, law_runs_are_lifted, law_runs_are_lodged};
pub use post_laws::{law_all_handed, law_one_place, law_posts_are_paired};
pub use rest_laws::law_rests_together;
