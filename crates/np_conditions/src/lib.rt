//! Conditions of events in code: what an event names, and where an agent is.
//!
//! What an event names, and a place, are read as the table of reductions asks for them.
//!
//! Contracts: `none_made`, `one_made`, `two_made`, `two_names`, `one_site`, `one_tag`, `way`, `at_site`.
#![tactic(auto)]

mod conditions;

pub use conditions::{
    at_site, no_other, none_made, one_made, one_site, one_tag, two_made, two_names, way,
};
