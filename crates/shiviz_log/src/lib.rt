//! The log of a run for ShiViz: an entry for each event, with a vector clock.
//!
//! Each event has one entry, at its site and in the order of the run. Its clock joins what its site knows and what the packet or
//! the agent knows of that comes by it, and counts the event itself (`clock_of`). A Land takes up the clock of the last Send of
//! its mark, and an Arrive that of the last Depart of its agent.
//!
//! Contracts: `log_text` (`log`).
#![tactic(auto)]

mod clocks;
mod entries;
mod log;
mod words;

pub use log::log_text;
