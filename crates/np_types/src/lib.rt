//! Least types of expressions, patterns against types, typing environments, and the laws of subtyping.
//!
//! Subtyping is a partial order. `least` gives the least type of an expression, or the first fault with its place and rule.
//! `cover` gives the names of a pattern their types, and changes nothing if it fails. `Env` is a finite map in which what was
//! put can be put back. What np_subtyping has is passed on.
//!
//! Contracts: `least`, `cover`, `Env`, `law_subtyping`.
#![tactic(auto)]

mod channels;
mod checks;
mod env;
mod expressions;
mod fault;
mod forms;
mod laws;
mod operands;
mod patterns;
mod values;
mod widths;

pub use channels::{input, output};
pub use checks::ensure;
pub use env::{Env, Trail};
pub use expressions::least;
pub use fault::{LeastFail, Rule, TypeFault};
pub use laws::law_subtyping;
pub use np_subtyping::{is_agent, is_bool, is_int, is_letter, is_places, is_site, sub};
pub use patterns::cover;
pub use widths::{is_narrow, is_printable};
