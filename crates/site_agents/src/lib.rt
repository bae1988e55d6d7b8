//! The agents that stand at one site, and whose turn it is.
//!
//! The agents are a finite map, and are lent to be changed in place. `next_ready` gives an agent with something that it can
//! do, and nothing only if none can do anything (if the agents that were found quiet are, which each call keeps: `AreQuiet`);
//! `next_likely` gives one whose index says that it can. An agent of which no index tells anything is looked at exactly in a
//! thorough turn alone, and only if no other has anything to do. What a call costs has no clause.
//!
//! Contracts: `Agents`.
#![tactic(auto)]

mod agents;
pub mod deeds;
mod lending;
mod queue;
mod seat;
mod serving;

pub use agents::Agents;
