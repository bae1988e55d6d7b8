//! Why a source is not well typed: the types at the fault, what was wanted there, why, and how to go on.
//!
//! It goes down to the process at whose offset the fault is, with the types that np gives the names on the way, and asks np's own
//! rules for the types there: a type that is shown is the least type of the expression that is marked (`least`), what a channel
//! carries, or one that the source writes. The mark holds np's offset (`Holds`).
//!
//! Contracts: none beyond that each call meets its conditions.
#![tactic(auto)]

mod apart;
mod bound;
mod channels;
mod checking;
mod expressions;
mod fault;
mod patterns;
mod processes;
mod showing;
mod tests;
mod wide;

pub use fault::reasons_of_fault;
pub use tests::reasons_of_test;
