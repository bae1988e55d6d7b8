//! A port over inboxes: one bounded queue for each receiving site, into which all sites put.
//!
//! It has the whole contract of a `Port` of site_links; `put` and `take` may wait. A way into an inbox also counts what the
//! port has taken from the site to which it leads since the link from there was settled last, so a settling knows how many
//! places are free again. That the count is right is a fact of two ports, so it is in `Linked`.
//!
//! Contracts: `Inboxes`.
#![tactic(auto)]

mod inboxes;
mod making;
mod settling;

pub use inboxes::Inboxes;
