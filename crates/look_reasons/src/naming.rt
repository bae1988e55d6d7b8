//! What a word names.

ghost use Rattle.std.specs.Prelude.{◌≡◌, IfErr, IfOk};
ghost use Rattle.np_verdict.specs.declared.statuses.TheConstants.{DONE};
ghost use Rattle.look_reasons.specs.Unread.{IsUnread};

use np_io::Word;
use np_syntax::{List, Memory};
use np_verdict::{DONE, Refusal};
use refusal_diagnoses::Told;
use refusal_topics::{Topic, explanation, topic_of};
use std::alloc::Global;

/// What a word names: a topic, or words that are said of a number that no refusal has.
#[derive(Clone, Copy)]
pub enum Subject {
    Topic(Topic),
    Said(&'static [u8]),
}

/// What a word names, if it names something.
pub fn named(word: &Word) -> Option<Subject> {
    let word = word.text().as_bytes();
    match word {
        b"2" | b"3" => Some(Subject::Said(b"no refusal has this number\n")),
        b"17" => Some(Subject::Said(b"NotEnabled never leaves np: see 21\n")),
        b"19" => Some(Subject::Said(b"no np of today gives Unbuilt\n")),
        _ => match topic_of(word) {
            Some(topic) => Some(Subject::Topic(topic)),
            None => None,
        },
    }
}

/// What is told of what a word names.
pub fn explained(alloc: Global, subject: Subject) -> Result<Told, Refusal>
    ensures unread { IfErr result IsUnread }
    ensures status { IfOk result (λ told. told.status ≡ DONE) }
{
    let text = match subject {
        Subject::Topic(topic) => explanation(alloc, topic),
        Subject::Said(words) => List::from_slice(alloc, words),
    };
    match text {
        Ok(text) => Ok(Told { text, status: DONE }),
        Err(Memory) => Err(Refusal::Memory),
    }
}
