//! The merged history of several sites: all their events by stamp and then by site, what they printed in that order, and the
//! run of the high level that is read off.
//!
//! The merged history is the only list in that order that has the events of each history in their order, and the same holds
//! of the values. The laws ask that no two histories have one site; the functions do not. `AreStamped` says what the stamps
//! of a run keep to: each history has its own site's events alone, what takes an item is stamped above what put it on its
//! way, and no stamp is above the number of all events.
//!
//! Contracts: `merge`, `said`, `lift`, `law_merged`, `law_said`, `AreStamped`.
#![tactic(auto)]

mod laws;
mod lifting;
mod merging;
mod rank;
mod saying;
mod sorting;

pub use laws::{law_merged, law_said};
pub use lifting::lift;
pub use merging::merge;
pub use saying::said;
