//! One site: the agents that stand there, what it made and printed, and the items that it has to put on its links.
//!
//! `step` does one event of an agent that is here and records it under the site's clock, or says that no agent can do
//! anything, or that the budget is spent. `step_likely` is the same, but that its finding nothing promises nothing. `accept`
//! does and records the event of an item that comes: the clock becomes greater than the item's stamp. `force` does an event
//! that is asked for. Each is an event of what the site holds (`Does`). If memory runs out the site is as it was, except for
//! reserved room. `next_out` and `give_back` hand items to a port.
//!
//! Contracts: `Site` (`Did`, `IsStepped`, `IsTried`, `HasTaken`).
#![tactic(auto)]

mod accepting;
mod coming;
mod forcing;
mod inner;
mod leaving;
mod line;
mod making;
mod marks;
mod noting;
mod outgoing;
mod sending;
mod site;
mod stepping;
mod telling;
mod within;

pub use site::Site;
pub use stepping::Stepped;
