//! One process and its environment: values of expressions, matching, and the forms of processes.
//!
//! `eval`, `bind` and `fits` are their definitions; `fits` says whether a value matches a pattern without making the value. A
//! `Frame` is a finite map from binders to values, of which a copy shares what is there. `errand_of` says what a process
//! waits for.
//!
//! Contracts: `eval`, `bind`, `fits`, `Frame`.
#![tactic(auto)]

mod fitting;
mod forms;
mod frame;
mod operands;
mod patterns;
mod values;

pub use fitting::{Shape, eval_shape, fits, matches};
pub use forms::{
    as_agent_form, as_if, as_iflocal, as_inp, as_let, as_lookup, as_migrate, as_new, as_open,
    as_par, as_post, as_print, as_rep, as_send, as_stop,
};
pub use frame::Frame;
pub use operands::{agent_of, chan_of, errand_of, find_place, letter_of, places_of, truth_of};
pub use patterns::bind;
pub use values::eval;
