//! The event of what comes to a site, and how it is recorded.
//!
//! An agent that comes is an Arrive at the site, and a packet a Land at its own. `record_taken` puts the event into the site's
//! history, under a stamp above the clock and above that of the item; the clock stands at it then.
//!
//! Contracts: `event_for`, `record_taken`.
#![tactic(auto)]

mod coming;
mod recording;

pub use coming::event_for;
pub use recording::record_taken;
