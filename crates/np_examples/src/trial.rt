//! The calls of np that are tried, and what is wanted of each.

use np_example_files::{Change, ExampleFail};
use np_run::{BAD_HISTORY, DONE};
use np_syntax::{Memory, Text};
use std::alloc::{AllocError, Global};

/// Which check of an example a call belongs to.
#[derive(Clone, Copy)]
pub(crate) enum Check {
    /// Of what the lines of the example say, by the words of that index.
    Words(usize),
    /// Of `low run`.
    Low,
    /// Of `replays itself`, after the call with the words of that index.
    Itself(usize),
    /// Of a change at a place: of the line of that number where pasts are asked for, and with that budget where a run is resumed.
    Changed(Change, usize),
}

/// Just what has to come.
#[derive(Drop)]
pub(crate) struct Expected {
    pub status: u8,
    pub out: String,
    pub err: String,
}

/// What is written of a run of so many events that prints these lines.
pub(crate) fn run_text(alloc: Global, lines: &str, count: usize) -> Result<String, AllocError> {
    format!(in alloc; "{lines}a run of {count} events\n")
}

/// What is wanted of a call.
#[derive(Drop)]
pub(crate) enum Wanted {
    /// What its example says.
    Said,
    /// The lines of the low program's run, in any order.
    Lines,
    Exactly(Expected),
    /// Any lines, and then that so many events are a run; or that the history is refused at this index or behind it.
    RunOrStop { count: usize, least: usize },
    /// The printed line of that number, counted from 1, then the history of what led to it, and then how many events that has.
    Past(usize),
    /// A run on sites which begins with the lines and the events of the history that the call reads, if it reads one.
    /// It is cut off or at rest.
    Sites,
    /// Such a run at rest, with the lines of the low program's run, in any order, and with as many events.
    WholeSites,
}

impl Wanted {
    /// So many events are a run, behind these lines.
    pub(crate) fn run(alloc: Global, lines: &str, count: usize) -> Result<Wanted, AllocError> {
        Ok(Wanted::Exactly(Expected {
            status: DONE,
            out: run_text(alloc, lines, count)?,
            err: String::new(alloc),
        }))
    }

    /// The history is refused so, at this index.
    pub(crate) fn refused(alloc: Global, refusal: &str, at: usize) -> Result<Wanted, AllocError> {
        Ok(Wanted::Exactly(Expected {
            status: BAD_HISTORY,
            out: String::new(alloc),
            err: format!(in alloc; "np: {refusal} at {at}\n")?,
        }))
    }
}

/// How a run on sites is cut off: over which kind of links, and by which budget.
#[derive(Clone, Copy)]
pub(crate) struct Way {
    pub links: &'static str,
    pub budget: usize,
}

/// What follows a call that gives what is wanted.
#[derive(Clone, Copy)]
pub(crate) enum Then {
    Nothing,
    /// The history that it wrote is replayed.
    Replay,
    /// Where it was refused, so many of the first events are replayed, and one more.
    Stop,
    /// The run that it wrote is resumed to its end, and with a few events more.
    Resume(Way),
    /// The run that it wrote is resumed to its end.
    End(Way),
}

/// A call of np.
#[derive(Drop)]
pub(crate) struct Trial {
    pub check: Check,
    pub words: String,
    /// The text `h`, where it is none of the example's texts.
    pub history: Option<Text>,
    pub wanted: Wanted,
    pub then: Then,
}

/// Adds a call, of parts as they came.
pub(crate) fn add(
    left: &mut Vec<Trial>,
    check: Check,
    words: Result<String, AllocError>,
    history: Result<Option<Text>, Memory>,
    wanted: Result<Wanted, AllocError>,
    then: Then,
) -> Result<(), ExampleFail> {
    left.push(Trial {
        check,
        words: words?,
        history: history?,
        wanted: wanted?,
        then,
    })?;
    Ok(())
}

impl Trial {
    /// The history that the call reads, if it is a text of its own.
    pub(crate) fn saved(&self) -> &str {
        match &self.history {
            Some(history) => std::str::from_utf8(history.as_slice()).unwrap_or(""),
            None => "",
        }
    }
}

/// What came of a call.
#[derive(Clone, Copy)]
pub(crate) struct Came<'a> {
    pub status: u8,
    /// How many events the run has that the answer keeps, if it keeps one.
    pub events: Option<usize>,
    /// How many letters are opened in it, if it is the run of a low program.
    pub opens: Option<usize>,
    /// How many of them the first site makes, if it is a run on sites of a text of the call.
    pub first: Option<usize>,
    /// How often an agent departs and then arrives in such a run, where no other departs before it does.
    pub moves: Option<usize>,
    /// Whether what is read off it is a run of the source, if it is a run on sites of a text of the call.
    pub reads_off: Option<bool>,
    pub out: &'a [u8],
    pub err: &'a [u8],
}

impl<'a> Came<'a> {
    pub(crate) fn is_text(&self) -> bool {
        std::str::from_utf8(self.out).is_ok()
    }

    /// What stands on out; nothing where it is no text.
    pub(crate) fn text(&self) -> &'a str {
        std::str::from_utf8(self.out).unwrap_or("")
    }
}
