//! From what a call made, or its refusal, to the exit status and what stands on the two sinks.
//!
//! `answer_of` writes the text of what was made, or the line of the refusal, and answers with the run, if there is one, and
//! with the status: that of the end of the run or of the refusal, or that a write failed or memory ran out. It knows nothing
//! of the words and the texts of the call.
//!
//! Contracts: `answer_of` (`Answers`), `Answer::told`.
#![tactic(auto)]

mod answer;
mod answering;

pub use answer::{Answer, Told};
pub use answering::answer_of;
