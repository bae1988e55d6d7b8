//! A turn: a site beside its port goes on for some events.
//!
//! It takes from the port first, otherwise steps, and puts what is outgoing on the port. `Turned` says what the site did,
//! took and sent, whether memory ran out or not, and `HadNothing` what was left if it made no event: if it had room for
//! one, no item was known to wait for it, and in a thorough turn no agent could do anything. A `Gate` is called after each
//! event on a thread. What sites see of each other within a round (`Signs`) are hints, of which no clause speaks. The
//! lemmas `Crossing` say that what a crew hands to threads may go to them: the kit finds such proofs by itself for types
//! without recursion.
//!
//! Contracts: `turn` (`Turned`, `HadNothing`), `Effort`, `Length`, `Gate`.
#![tactic(auto)]

mod effort;
mod gate;
mod mail;
mod receiving;
mod seat;
mod sending;
mod signs;
mod turning;

pub use effort::{Effort, Length};
pub use gate::{Free, Gate};
pub use receiving::{admit, has_room};
pub use seat::Seat;
pub use signs::Signs;
pub use turning::turn;
