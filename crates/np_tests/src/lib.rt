//! Tests of what no contract and no example can say: calls over real files and streams, items that two threads pass on, sites
//! on two threads, and public calls that no mode of the program makes, or that it makes in its own way alone, each with ample memory.
//!
//! Contracts: none beyond that each call it makes meets its conditions.
#![tactic(auto)]

#[cfg(test)]
mod adapters;
#[cfg(test)]
mod agents;
#[cfg(test)]
mod copies;
#[cfg(test)]
mod crews;
#[cfg(test)]
mod forced;
#[cfg(test)]
mod gates;
#[cfg(test)]
mod histories;
#[cfg(test)]
mod links;
#[cfg(test)]
mod low_types;
#[cfg(test)]
mod low_values;
#[cfg(test)]
mod nodes;
#[cfg(test)]
mod replays;
#[cfg(test)]
mod sources;
#[cfg(test)]
mod views;
#[cfg(test)]
mod work_lists;
