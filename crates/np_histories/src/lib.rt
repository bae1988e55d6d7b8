//! What is made of the bytes of a history: the replay of a low program, the past of one line, or the text in the newest
//! format; or the first refusal.
//!
//! `replayed` follows the events of a history of a low program and makes the report, of what was printed or of the past of
//! one line (`View`), or gives the line or the index at fault, or the number of the lines that there are. `events_of` gives
//! the events themselves, and `check_run` refuses those that are no run. `upgraded` gives the text in the second format. No
//! history is both taken and refused, and none is refused in two ways.
//!
//! Contracts: `replayed` (`Replays`, `TellsPast`, `IsFaulty`), `events_of` (`IsRead`), `check_run` (`Stops`), `upgraded`
//! (`Upgrades`, `HasNoEvents`), `law_one_answer` (`HaveOneAnswer`).
#![tactic(auto)]

mod events;
mod laws;
mod limits;
mod pasts;
mod replaying;

pub use events::{events_of, upgraded};
pub use laws::law_one_answer;
pub use limits::LONGEST_HISTORY;
pub use replaying::{check_run, replayed};
