//! The text that explains a topic.

ghost use Rattle.std.specs.Prelude.{◌≡◌, ◌++◌, IfOk, OnOk};
ghost use Rattle.refusal_topics.specs.Topics.{BeginsWith, title};

use super::explaining::words_of;
use super::topic::{Topic, topic_number, topic_word};
use np_syntax::{List, Memory, Text};
use std::alloc::Global;

/// Appends the number and the word of a topic.
pub fn put_title(text: &mut Text, topic: Topic) -> Result<(), Memory>
    ensures { OnOk result (text.new ≡ text.old ++ title topic) }
{
    text.append(topic_number(topic))?;
    text.append(b" ")?;
    text.append(topic_word(topic))
}

/// The text that explains a topic: its title, what it is, and a wrong and a right source.
pub fn explanation(alloc: Global, topic: Topic) -> Result<Text, Memory>
    ensures { IfOk result (λ text. BeginsWith (title topic) text) }
{
    let mut text = List::new(alloc);
    put_title(&mut text, topic)?;
    text.append(words_of(topic))?;
    Ok(text)
}
