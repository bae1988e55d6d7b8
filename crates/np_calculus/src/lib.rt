//! The two calculi: configurations, the table of reductions, runs, starts, rest. Definitions and laws, and the types and
//! numbers that code shares.
//!
//! A row of the table sees only the number of sites, the agents at its site and their atoms (`Sight`), and answers what it
//! changes as data (`Change`). So **the frame rule** (`law_frame`) is one walk over the rows: an event of a part of a
//! configuration is an event of the whole, which leaves the rest as it is, and conversely. An event depends on nothing but
//! what it touches. Where no value of a wrong type is met, a site can act exactly if some event of it is enabled. Where each
//! agent that a start names has a place, the agent of each atom has one along each run. Proofs above cite `Rows` and `Steps`,
//! which take a row apart, `Fits` and `Puts`.
//!
//! Contracts: `law_examples`, `law_acts_where_enabled`, `law_frame`, `law_footprints`, `law_lodged`.
#![tactic(auto)]

mod config;
mod laws;
mod starts;

pub use config::{Atom, Packet, Place};
pub use laws::{law_acts_where_enabled, law_examples, law_footprints, law_frame, law_lodged};
pub use starts::{DAEMON, DAEMON_MARK, MAIN, MAIN_MARK};
