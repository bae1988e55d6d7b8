//! Runs in one thread, from the high start of a program or the low start of a low program; and lists of events that are
//! followed.
//!
//! From a start that can run (`RunsWell`) it makes a run within the budget, meets no value of a wrong type, and says truly
//! how it ended. Both runs are one loop. `replay` gives the configuration after all the events from the start of a low
//! program, or the index at which they stop being a run, and `follow` does so from any configuration; there is just one such
//! index.
//!
//! Contracts: `run_serial`, `run_serial_low` (`IsSerialRun`), `replay`, `follow`, `law_one_end`.
#![tactic(auto)]

mod events;
mod fail;
mod laws;
mod run;
mod serial;

pub use fail::ReplayFail;
pub use laws::law_one_end;
pub use run::{follow, replay};
pub use serial::{SerialRun, run_serial, run_serial_low};
