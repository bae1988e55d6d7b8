//! Every schedule: what can happen next is chosen by numbers among all that is enabled.
//!
//! `Waiting` lists all that can happen next in a configuration: an entry for each agent under way, each packet, each atom that acts
//! alone, and each channel of an agent on which both an output and an input wait. It is kept up to date as events are made: what an
//! event touched is listed anew. `run_seeded` makes a run in which each event is one of that list, chosen by draws, the words of a
//! `Pcg32`, so that a seed gives the same run on each machine. It is a run from the start, event by event, and at rest exactly
//! where nothing is enabled. Each choice can be made, each event that is enabled is one of the choices, and for each run there
//! are draws by which just it is made.
//!
//! `run_seeded_low` makes, in the same way, a run of a low program that its sites could make by themselves: a choice of what is
//! under way stands for what is first on the same link, and an event makes the next names of its site. For each such run there
//! are draws by which just it is made.
//!
//! Contracts: `run_seeded` (`IsSerialRun`, `AreChosen`), `run_seeded_low` (`IsSerialRun`, `IsOurs`, `IsDrawn`),
//! `event_of`, `serve`, `law_each_can_go`, `law_each_is_named`, `law_each_run`, `law_each_is_served`, `law_each_own_run`.
#![tactic(auto)]

mod choice;
mod entry_list;
mod events;
mod laws;
mod line;
mod lines;
mod seeded;
mod seeded_low;
mod serving;
mod waiting;

pub use laws::{
    law_each_can_go, law_each_is_named, law_each_is_served, law_each_own_run, law_each_run,
};
pub use seeded::run_seeded;
pub use seeded_low::run_seeded_low;
