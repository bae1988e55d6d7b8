//! Values by their marks, each filed under what it waits for: it acts alone, it is an output or an input on a channel, or it
//! waits on none.
//!
//! An index is a finite map, and tells exactly who waits on a channel. Beside the table there are lanes, for each channel on
//! which someone waits, in step with it. `reserve` makes room for the next values whatever they wait for, and a `put` within
//! that room takes no memory. The order in which they wait, and the hints of what may act next (`Turns`), have no clause.
//!
//! Contracts: `Index`, `Waiters`.
#![tactic(auto)]

mod index;
mod lanes;
mod marks;
mod turns;
mod wait;
mod waiters;

pub use index::{Index, MOST_AHEAD};
pub use wait::Wait;
pub use waiters::Waiters;
