//! The words of the command line, read by clap as one simple command, and their plan.
//!
//! `plan_of` gives a plan exactly if clap takes the words and they meet the table of the modes (`Modes`), and it is the plan
//! of that table; else a fault of usage. Which words clap takes is said by clap's own definitions, of the command in the
//! specs (`Arguments`). The plan owns its words: `Plan` has a variant for what is read, with the mode's own operands, and
//! `Task` one for each mode that reads one source. The format in which histories of an infrastructure are written is decided
//! here (`format_for`).
//!
//! Contracts: `plan_of` (`plan`), `format_for`, `law_taken`.
#![tactic(auto)]

mod arguments;
mod fail;
mod formats;
mod laws;
mod modes;
mod numerals;
mod planning;

pub use fail::PlanFail;
pub use formats::format_for;
pub use laws::law_taken;
pub use modes::{HighText, Infrastructure, Links};
pub use numerals::LAST_LINE;
pub use planning::{Plan, Task, View, plan_of};
