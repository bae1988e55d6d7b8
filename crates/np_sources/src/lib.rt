//! What each mode makes of the bytes of a source: a text, and a run where it runs the source; or the first refusal.
//!
//! `job_of` makes what is asked for, or gives the refusal with its cause; of a run on sites it gives what the headline
//! promises (`KeepsPromises`), and with `--one` also that the one-step list is a run of the calculus in which migration is
//! one step. A run that goes on from saved events begins with them (`KeepsResumed`). `load_of` does so with a generated
//! source, which is no longer than a source may be. `low_of` gives the low program of an infrastructure, whose process nodes
//! are few and which can run; `run_low` runs it in one thread. `Reach` says how far a mode takes a source. No source is both
//! taken so far and refused, and none is refused in two ways.
//!
//! Contracts: `job_of` (`DoesTask`, `KeepsPromises`, `IsShownSo`, `FaultyTo`), `job_redone` (`KeepsResumed`), `stop_of`
//! (`CannotGoOn`), `load_of` (`DoesLoad`), `low_of` (`IsLowOf`), `run_low` (`RunsLow`), `law_one_answer` (`HaveOneAnswer`).
#![tactic(auto)]

mod high;
mod job;
mod laws;
mod limits;
mod loads;
mod lowering;
mod resuming;
mod runs;
mod sites;
mod sources;

pub use job::{Job, MadeRun, text_alone};
pub use laws::law_one_answer;
pub use limits::LOAD_BUDGET;
pub use loads::load_of;
pub use lowering::{Compiled, compiled_of, low_of};
pub use np_on_sites::Record;
pub use resuming::{job_redone, stop_of};
pub use runs::run_low;
pub use sites::{Course, Shown};
pub use sources::job_of;
