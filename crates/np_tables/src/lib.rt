//! Finite maps and sets of names, in which room can be reserved, and the work lists of a configuration.
//!
//! A `Table` is a finite map and `Names` a finite set, whatever their stored order. What is put where room was reserved
//! cannot fail; a call that runs out of memory changes nothing. A value is lent, to be changed in place. `WorkLists` files
//! each atom under its *errand* (it acts alone, it gives or takes at a meeting of an agent and a channel, or it is stuck): it
//! hands out only what can act, and nothing only if nothing can.
//!
//! Contracts: `Table`, `Names`, `WorkLists::next`.
#![tactic(auto)]

mod by_errand;
mod errand;
mod line;
mod marks;
mod names;
mod table;
mod turns;
mod work_lists;

pub use errand::{Errand, Meeting, Ready};
pub use names::Names;
pub use table::Table;
pub use work_lists::WorkLists;
