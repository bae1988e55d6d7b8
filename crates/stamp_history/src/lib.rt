//! The clock of a site, and its history: the events that it makes, with rising stamps, and what it printed.
//!
//! A clock, seen as a number, gives a stamp greater than its own, and greater than that of an item that comes. A history has
//! room for its whole budget from the start, so recording an event takes no memory; a value that is printed needs a place
//! that was made before. Stamps rise, there are at most as many events as the budget, and one value for each Print.
//!
//! Contracts: `Clock`, `History`, `Stamped`.
#![tactic(auto)]

mod clock;
mod history;
mod stamped;

pub use clock::Clock;
pub use history::History;
pub use stamped::Stamped;
