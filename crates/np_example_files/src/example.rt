ghost use Rattle.std.specs.Prelude.{◌≡◌, [], IfOk};
ghost use Rattle.std.specs.Option.{option_copied};
ghost use Rattle.np_example_files.specs.Examples.{begun, outcome_said, said, text_of};

use super::change::Change;
use std::alloc::{AllocError, Global};

/// A text of an example, by its name.
#[derive(Drop)]
pub struct NamedText {
    pub name: String,
    pub bytes: Vec<u8>,
}

/// What may come on out: these lines in any order, and then these in theirs, each with its line feed.
#[derive(Drop)]
pub struct Outcome {
    pub unordered: String,
    pub ordered: String,
}

impl Outcome {
    /// Nothing may come on out.
    pub fn new(alloc: Global) -> Outcome
        ensures { outcome_said result ≡ ([], []) }
    {
        Outcome {
            unordered: String::new(alloc),
            ordered: String::new(alloc),
        }
    }
}

/// The numbers of the calls that fail, and how many bytes a sink takes a call.
#[derive(Drop)]
pub struct Devices {
    pub texts: Vec<u64>,
    pub out: Vec<u64>,
    pub err: Vec<u64>,
    pub piece: usize,
}

/// Calls of np, and what each must do.
pub struct Example {
    pub title: String,
    /// Where the example begins, counted from 1.
    pub line: u32,
    /// The words of each call, with single blanks between them.
    pub calls: Vec<String>,
    /// Whether the low program of each source, here and below, is that of the infrastructure with caches.
    pub with_caches: bool,
    /// Whether the low program of each source is run as well.
    pub runs_low: bool,
    /// Whether that run has to print the lines that a run at the high level prints, in any order.
    pub as_high: bool,
    /// How the history of the low program's run is changed before it is replayed.
    pub replays: Vec<Change>,
    /// Whether the history that each call writes is replayed.
    pub replays_itself: bool,
    /// What stands under the name `a`: each is tried with each call.
    pub sources: Vec<String>,
    pub texts: Vec<NamedText>,
    pub devices: Devices,
    pub status: u8,
    pub events: Option<usize>,
    pub opens: Option<usize>,
    /// How many events the first site makes.
    pub first: Option<usize>,
    /// How often an agent departs and then arrives, where no other departs before it does.
    pub moves: Option<usize>,
    pub lines: Option<usize>,
    pub outcome: Outcome,
    /// Outcomes that would do as well.
    pub others: Vec<Outcome>,
    pub err: String,
}

impl Drop for Example {
    fn drop(self) {
        let Example {
            title: _,
            line: _,
            calls: _,
            with_caches: _,
            runs_low: _,
            as_high: _,
            replays: _,
            replays_itself: _,
            sources: _,
            texts: _,
            devices: _,
            status: _,
            events: _,
            opens: _,
            first: _,
            moves: _,
            lines: _,
            outcome: _,
            others: _,
            err: _,
        } = self;
    }
}

/// More bytes than any call writes at once.
const WHOLE: usize = 16_777_216;

impl Example {
    /// An example of that title and line, of which nothing else is said yet.
    pub fn new(alloc: Global, title: &str, line: u32) -> Result<Example, AllocError>
        ensures { IfOk result (λ example. said example ≡ begun title.now line) }
    {
        Ok(Example {
            title: String::from_str(alloc, title)?,
            line,
            calls: Vec::new(alloc),
            with_caches: false,
            runs_low: false,
            as_high: false,
            replays: Vec::new(alloc),
            replays_itself: false,
            sources: Vec::new(alloc),
            texts: Vec::new(alloc),
            devices: Devices {
                texts: Vec::new(alloc),
                out: Vec::new(alloc),
                err: Vec::new(alloc),
                piece: WHOLE,
            },
            status: 0,
            events: None,
            opens: None,
            first: None,
            moves: None,
            lines: None,
            outcome: Outcome::new(alloc),
            others: Vec::new(alloc),
            err: String::new(alloc),
        })
    }

    /// The bytes of the text of that name.
    pub fn text(&self, name: &str) -> Option<&[u8]>
        ensures { option_copied result ≡ text_of self.now.texts.items name.now }
    {
        self.texts
            .iter()
            .find(|text| text.name.as_str() == name)
            .map(|text| text.bytes.as_slice())
    }
}
