//! The low program of a source, run one event after another.

use super::case::Case;
use super::counting::count_of;
use super::trial::Came;
use history_text::write_history;
use np_example_files::ExampleFail;
use np_run::{BUDGET_SPENT, DONE, Infrastructure, MadeRun, Refusal, line, run_low, status};
use np_syntax::{End, Event, Kind, LARGEST_BUDGET, LONGEST_SOURCE, List, Memory, Text};
use std::alloc::Global;
use std::fs;
use std::rt::Files;

/// A run with its report, or the line of a refusal.
#[derive(Drop)]
pub(crate) struct LowMade {
    status: u8,
    /// Those of the run; none where the source is refused.
    pub events: List<Event>,
    out: Text,
    err: Text,
}

impl LowMade {
    /// What came of it. Each letter that was opened is a message that was handed over.
    pub(crate) fn came(&self) -> Came<'_> {
        let events = self.events.as_slice();
        let is_run = self.err.as_slice().is_empty();
        Came {
            status: self.status,
            events: is_run.then_some(events.len()),
            opens: is_run.then_some(count_of(events, Kind::Open)),
            first: None,
            moves: None,
            reads_off: None,
            out: self.out.as_slice(),
            err: self.err.as_slice(),
        }
    }
}

/// A run that was made.
fn ended(alloc: Global, made: MadeRun, out: Text) -> LowMade {
    let MadeRun { events, end } = made;
    let status = match end {
        End::Rest => DONE,
        End::Spent => BUDGET_SPENT,
    };
    LowMade {
        status,
        events,
        out,
        err: List::new(alloc),
    }
}

/// A source that is refused.
fn refused(alloc: Global, refusal: Refusal) -> Result<LowMade, Memory> {
    let err = line(alloc, refusal)?;
    Ok(LowMade {
        status: status(refusal),
        events: List::new(alloc),
        out: List::new(alloc),
        err,
    })
}

/// Runs the low program of a source within the greatest budget.
fn run_of(alloc: Global, infrastructure: Infrastructure, source: &[u8]) -> Result<LowMade, Memory> {
    if source.len() > LONGEST_SOURCE {
        return refused(alloc, Refusal::TooLong);
    }
    match run_low(alloc, infrastructure, LARGEST_BUDGET, source) {
        Ok((made, text)) => Ok(ended(alloc, made, text)),
        Err(Refusal::Memory) => Err(Memory),
        Err(refusal) => refused(alloc, refusal),
    }
}

/// The run of the low program of the source of a case.
pub(crate) fn run_of_low(alloc: Global, case: &Case<'_>) -> Result<LowMade, Memory> {
    let source = case.source_bytes().unwrap_or(b"");
    run_of(alloc, case.infrastructure(), source)
}

/// Prints the history of the run of the low program of the source in a file.
pub(crate) fn print_history<R: Files + Alloc + Print>(
    rt: &R,
    alloc: Global,
    file: &str,
) -> Result<(), ExampleFail> {
    let source = fs::read(rt, file)?;
    let made = run_of(alloc, Infrastructure::Central, source.as_slice())?;
    let history = write_history(alloc, made.events.as_slice())?;
    let text = std::str::from_utf8(history.as_slice()).unwrap_or("");
    print!(rt; "{text}")?;
    Ok(())
}
