//! What np refuses, explained: each refusal and each rule of typing by its name or its number, with a wrong and a right source.
//!
//! A word is the name or the number of the first topic that has it (`topic_of`), and a refusal has the topic by which np names it
//! (`IsTopicOf`): what np writes of it begins with the topic's number and word. An explanation begins with them too. That what is
//! said is true of the refusal is not proved.
//!
//! Contracts: `topic_of`, `topic_word`, `topic_number`, `topic_of_refusal` (`IsTopicOf`), `put_title`, `explanation`
//! (`BeginsWith`).
#![tactic(auto)]

mod explaining;
mod explaining_rules;
mod telling;
mod telling_text;
mod topic;

pub use telling::topic_of_refusal;
pub use telling_text::{explanation, put_title};
pub use topic::{TOPICS, Topic, topic_number, topic_of, topic_word};
