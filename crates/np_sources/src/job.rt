ghost use Rattle.std.specs.Prelude.{◌≡◌, None};

use np_on_sites::Record;
use np_syntax::{End, Event, List, Text};

/// A run in one thread: its events, and how it ended.
#[derive(Drop)]
pub struct MadeRun {
    pub events: List<Event>,
    pub end: End,
}

/// The text to write to standard output, and the run if there was one.
#[derive(Drop)]
pub struct Job {
    pub kept: Option<Record>,
    pub high: Option<MadeRun>,
    pub text: Text,
}

/// The job of a mode that keeps no run.
pub fn text_alone(text: Text) -> Job
    ensures kept { result.kept ≡ None }
    ensures high { result.high ≡ None }
    ensures text { result.text ≡ text }
{
    Job {
        kept: None,
        high: None,
        text,
    }
}
