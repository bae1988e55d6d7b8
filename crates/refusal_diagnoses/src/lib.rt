//! What is said of a refusal: where it is, what np writes of it, the line, marked there, and how to go on.
//!
//! The refusal that is told is the one that np names, at its place: an offset of a source, or the line of a history (`IsToldThere`).
//! Behind what np writes of it stand lines, in which no control and no turning character stands (`shown_lines`). Each refusal that has
//! an offset is marked, and the mark holds it, but at the end of a source (`MarksIn`).
//!
//! Contracts: `judged` (`IsJudged`), `told_of` (`IsRefused`), `told_usage` (`IsUsage`), `source_reasons` (`MarksIn`), `spot_of`.
#![tactic(auto)]

mod judging;
mod places;
mod resolved;
mod source;
mod spot;
mod telling;

pub use judging::{Told, judged, nothing, told_of, told_usage};
pub use source::source_reasons;
pub use spot::{Spot, spot_of};
