//! The translation for agents with caches: the low program of a checked program whose posts go by messengers where the cache
//! has a hint.
//!
//! `encode_cached` gives exactly the low program of the definitions, which is one by the relation of daemon_encode, whose
//! `Translator` it uses for the forms that are the same. Neither main nor the daemon of an accepted program has a fault of
//! types, each run from its low start is typed and meets no value of a wrong type, and so it can run.
//!
//! Contracts: `encode_cached`, `law_cached_translates`, `law_cached_typed`, `law_cached_runs_well`, `law_cached_examples`.
#![tactic(auto)]

mod laws;
mod programs;
mod translator;

pub use laws::{
    law_cached_examples, law_cached_runs_well, law_cached_translates, law_cached_typed,
};
pub use programs::encode_cached;
