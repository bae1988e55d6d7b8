//! An inbox over a ruled queue, and the ways into it.
//!
//! What was put, what was taken, and what is known once an inbox and a way into it are settled, for each by itself.
//!
//! Contracts: `Inbox`, `Outlet`.
#![tactic(auto)]

mod ends;
mod making;
mod putting;
mod settling;
mod taking;

pub use ends::{Inbox, Outlet, Queue};
