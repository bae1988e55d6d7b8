//! All sites of a low program, in rounds: each takes its turn, on a thread of its own or one after another, and then the
//! links are settled.
//!
//! A crew begins at the low start of a program that runs safely. After each round the merged histories are a run of it, which
//! prints what they have as printed, which is ours (run_save) and stamped by Lamport's rule, and which ends in just what the
//! sites, the links and the histories show (`IsShownBy`). If memory ran out all this still holds, and the crew stays failed:
//! later rounds change nothing. `Crew::run` does rounds until one adds no event. It says that the crew is at rest exactly if
//! no site can act, and if it says that the budget is spent, each site that can still act has used up its budget, and there
//! is one. A crew that has done nothing can do saved events again, in their order, under the stamps 1, 2, 3 and so on, and
//! does all of a run that is ours and within the budget.
//!
//! Contracts: `Crew::run` (`HasEnded`), `Crew::round` (`IsRoundOf`), `Crew::redo` (`HasRedone`), `Crew::follow`
//! (`HasFollowed`, `HasFailed`), `HasRun`, `law_crew_run`.
#![tactic(auto)]

mod again;
mod bringing;
mod catching;
mod counting;
mod crew;
mod follow_fail;
mod laws;
mod past;
mod round;
mod rounds;
mod settling;
mod turns;

pub use counting::events_of;
pub use crew::Crew;
pub use follow_fail::FollowFail;
pub use laws::law_crew_run;
pub use past::refusal;
pub use round::Round;
pub use rounds::{serial_round, threads_round};
pub use settling::settle_all;
pub use turns::{serial_turns, threads_turns};
