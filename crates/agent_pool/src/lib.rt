//! An agent as a value that can be handed on: its name and its atoms, and a call for each reduction.
//!
//! Each call does what its row of the table of reductions says, on this agent (`Reduces`), and a refusal leaves the agent as
//! it was. An atom is the number of a node and a frame, or an output that came from outside; contracts see the atoms of the
//! calculus (`atoms_of`). `first_ready` gives something that the agent can do, and nothing only if it can do nothing; it
//! looks at hints first, and says none only after one walk over the atoms. `is_ready` and `idle` are exact. An event of an
//! agent is an event of each configuration that has the agent so (`law_shown`).
//!
//! Contracts: `Agent`, `law_shown`.
#![tactic(auto)]

mod agent;
mod alone;
mod begins;
mod decide;
mod held;
mod idle;
mod laws;
mod letters;
mod meets;
mod moves;
mod operands;
mod ready;
mod resting;
mod search;

pub use agent::Agent;
pub use held::Held;
pub use laws::law_shown;
pub use ready::Ready;
