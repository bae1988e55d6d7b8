//! Whether a run is *ours*: one that the sites of its low program make by themselves. Each numbers the names that it makes,
//! and each link is first-in first-out.
//!
//! `ours_until` says of a run from the start of a low program that it is ours, or gives the index of the last event of the
//! shortest prefix that is not. A prefix of what is ours is ours, and an event more is ours exactly if its names are the next
//! of its site and what it takes was put first. It keeps a count for each site and a queue for each link that was used, so an
//! event costs a few look-ups. Who makes a run event by event keeps the same `Notes`, which tell how many names a site has made
//! and what is first on a link.
//!
//! Contracts: `ours_until` (`IsOurs`, `StopsBeingOurs`), `Notes` (`AreNoted`, `IsNoted`), `law_nothing_is_ours`,
//! `law_prefix_is_ours`, `law_ours_goes_on`.
#![tactic(auto)]

mod counts;
pub mod following;
mod laws;
mod notes;
mod ours;
mod queue;
mod trips;

pub use laws::{law_nothing_is_ours, law_ours_goes_on, law_prefix_is_ours};
pub use notes::Notes;
pub use ours::ours_until;
pub use trips::{Item, Link, Trip};
