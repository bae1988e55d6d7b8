//! Which condition of its row an event fails, where the table of reductions refuses it.
//!
//! The conditions are data: `Condition` names what a row asks of an event, in the order in which it is asked, and `holds` says what
//! it means that one holds in a configuration. `unmet` gives the first one that does not hold. The table refuses an event exactly
//! where one of them does not hold (`law_refused`), so a refusal always has its condition, and no condition is asked in vain.
//! `field_of` gives the field of an event's line that a condition is about.
//!
//! Which names are born is told by the events before, since a configuration does not give them out.
//!
//! Contracts: `unmet` (`first_unmet`), `field_of`, `law_refused` (`IsRefusedWhereUnmet`).
#![tactic(auto)]

mod actors;
mod condition;
mod first;
mod laws;
mod made;
mod operands;
mod outputs;

pub use condition::{Condition, EventField, field_of};
pub use first::{Moment, unmet};
pub use laws::law_refused;
pub use made::{asked_agent, made_names, makes, names_wanted};
