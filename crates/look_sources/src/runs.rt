//! The run that is looked at.

ghost use Rattle.std.specs.Prelude.{◌≡◌, None, Some, IfOk};
ghost use Rattle.np_calculus.specs.Runs.{RunsWell};
ghost use Rattle.np_calculus.specs.Starts.{start_low};
ghost use Rattle.look_sources.specs.Looked.{IsFound, IsLookedAt, IsMade, IsOfHistory};

use super::reading::{LONGEST_HISTORY, read_text};
use history_text::{HistFail, read_history};
use np_io::{Texts, Word};
use np_serial::{SerialRun, run_serial_low};
use np_syntax::{End, Event, List, LowProgram, Memory};
use np_verdict::Refusal;
use run_choices::run_seeded_low;
use std::alloc::Global;

/// The events that are looked at, and how their run ended.
#[derive(Drop)]
pub struct Run {
    pub events: List<Event>,
    pub end: End,
}

/// The run of the history of a name.
fn read_run<T: Texts>(alloc: Global, texts: &mut T, name: &Word) -> Result<Run, Refusal>
    ensures { IfOk result IsOfHistory }
{
    let lines = read_text(alloc, texts, name, LONGEST_HISTORY, Refusal::HistoryTooLong)?;
    match read_history(alloc, lines.as_slice()) {
        Ok(events) => Ok(Run {
            events,
            end: End::Rest,
        }),
        Err(HistFail::Memory) => Err(Refusal::Memory),
        Err(HistFail::HistSyntax(line)) => Err(Refusal::HistSyntax(line)),
    }
}

/// The run of the history of a name, if there is a name.
pub fn history_of<T: Texts>(
    alloc: Global,
    texts: &mut T,
    name: &Option<Word>,
) -> Result<Option<Run>, Refusal>
    ensures { IfOk result (IsFound name.now) }
{
    match name {
        Some(name) => match read_run(alloc, texts, name) {
            Ok(run) => Ok(Some(run)),
            Err(refusal) => Err(refusal),
        },
        None => Ok(None),
    }
}

/// What is kept of a run.
fn kept(run: SerialRun) -> Run
    ensures { result ≡ record { events = run.events; end = run.end } }
{
    let SerialRun { events, last, end } = run;
    drop(last);
    Run { events, end }
}

/// A run by a seed.
fn seeded(alloc: Global, budget: u32, seed: u64, low: &LowProgram) -> Result<Run, Memory>
    requires { RunsWell (start_low low.now) low.now.at }
    ensures { IfOk result (IsMade low.now budget (Some seed)) }
{
    match run_seeded_low(alloc, low, seed, budget) {
        Ok(run) => Ok(kept(run)),
        Err(memory) => Err(memory),
    }
}

/// A run in which one event after another is made in turn.
fn in_turn(alloc: Global, budget: u32, low: &LowProgram) -> Result<Run, Memory>
    requires { RunsWell (start_low low.now) low.now.at }
    ensures { IfOk result (IsMade low.now budget None) }
{
    match run_serial_low(alloc, low, budget) {
        Ok(run) => Ok(kept(run)),
        Err(memory) => Err(memory),
    }
}

/// The run that is looked at: this one, or one that is made, by a seed or in turn.
pub fn run_of(
    alloc: Global,
    budget: u32,
    seed: Option<u64>,
    history: Option<Run>,
    low: &LowProgram,
) -> Result<Run, Memory>
    requires { RunsWell (start_low low.now) low.now.at }
    ensures { IfOk result (IsLookedAt history low.now budget seed) }
{
    match (history, seed) {
        (Some(run), _) => Ok(run),
        (None, Some(seed)) => seeded(alloc, budget, seed, low),
        (None, None) => in_turn(alloc, budget, low),
    }
}
