//! Which event of the sites each event of the source is read off from.
//!
//! The numbers are those of the events of the sites that become one of the source, by np_lift's tables for either infrastructure,
//! in their order. So there are as many as events are read off, and the one of a number is read off from the event of that number.
//!
//! Contracts: `twins`, `cached_twins`, `law_twins`.
#![tactic(auto)]

mod cached;
mod central;
mod laws;

pub use cached::cached_twins;
pub use central::twins;
pub use laws::law_twins;
