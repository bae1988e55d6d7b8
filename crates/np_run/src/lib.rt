//! The top call, with a gate and without one.
//!
//! It makes the text first and has it written then. Each answer has its cause (`HasCauses`), and each run on sites that an
//! answer keeps meets the `Headline`.
//!
//! Contracts: `np`, `np_gated` (`HasCauses`, `Headline`).
#![tactic(auto)]

mod top;

pub use np_answers::{Answer, Told};
pub use np_on_sites::{Free, Gate, Record};
pub use np_sources::{MadeRun, run_low};
pub use np_verdict::{
    BAD_HISTORY, BAD_SOURCE, BAD_USAGE, BUDGET_SPENT, DONE, NO_MEMORY, READ_FAILED, Refusal,
    WRITE_FAILED, line, status,
};
pub use np_words::Infrastructure;
pub use top::{np, np_gated};
