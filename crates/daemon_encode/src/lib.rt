//! The translation: the low program of a checked program, with its daemon.
//!
//! `encode` gives exactly the low program of the definitions. Neither main nor the daemon of an accepted program has a fault
//! of types, no run from its low start meets a value of a wrong type, and so this start can run serially. Beside the function
//! stands a relation, `Translates`, which leaves the numbers of the binders that the translation makes open; laws about runs
//! of both levels stand on it, for either infrastructure.
//!
//! Contracts: `encode`, `law_translates`, `law_encodes_typed`, `law_low_runs_well`, `law_examples`.
#![tactic(auto)]

mod laws;
mod programs;
mod translated;
mod translator;

pub use laws::{law_encodes_typed, law_examples, law_low_runs_well, law_translates};
pub use programs::encode;
pub use translated::Translated;
pub use translator::Translator;
