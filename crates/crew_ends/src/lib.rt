//! The seats that a crew begins with, and when nothing is left for them to do.
//!
//! There is a seat for each port, in order; it has the agents that stand at its site at the low start, and has done nothing.
//! All is quiet exactly if no agent can go on at any site, and no item waits, is set aside or is still to be sent. A site is
//! over exactly if it has made as many events as the budget, or if its agents are idle and no item waits for it, is set aside
//! there, or is still to be put on a link to it.
//!
//! Contracts: `seats_for` (`AreFirst`), `all_quiet` (`AllQuiet`), `are_over` (`AreOver`).
#![tactic(auto)]

mod quiet;
mod starting;

pub use quiet::{all_quiet, are_over};
pub use starting::seats_for;
