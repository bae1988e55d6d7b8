//! The two levels: each run of the low level gives a run of the high level. Four modules of laws, each over those before it,
//! and functions that tell the same of a run at hand.
//!
//! Of merged histories that are a run, `law_merge` answers the configuration to which they lead. Of a run of a compiled
//! program, `law_lift` answers the configuration to which its lifted list leads from the high start, with the same printed
//! values and its posts paired; `law_rest` says that no site can act there if none can act below, that each post was handed
//! over, and that the locks of the daemon are free; `law_cached` says the same with caches. Each replays what it speaks of.
//!
//! Contracts: `law_merge`, `law_lift` (`ShowsHigh`), `law_rest` (`ShowsRest`), `law_cached` (`ShowsCached`).
#![tactic(auto)]

mod caching;
mod following;
pub mod levels;
mod lifting;
mod merging;
pub mod protocol;
mod resting;
pub mod simulation;
pub mod things;

pub use caching::law_cached;
pub use lifting::law_lift;
pub use merging::law_merge;
pub use resting::law_rest;
