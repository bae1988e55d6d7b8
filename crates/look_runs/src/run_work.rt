//! Runs by seed, and what is written of them.

ghost use Rattle.std.specs.Prelude.{◌≡◌, IfOk};
ghost use Rattle.np_calculus.specs.Runs.{RunsWell};
ghost use Rattle.np_calculus.specs.Starts.{start_low};
ghost use Rattle.np_on_sites.specs.ByInfrastructure.{low_by};
ghost use Rattle.look_runs.specs.Seeded.{IsHighRun, IsLowRun, IsReport, IsRun, IsRunShown};

use history_text::{write_high, write_history, write_history_1};
use look_sources::{Shown, lowered, source_of};
use look_words::{Level, Single, Way};
use np_check::Checked;
use np_io::Texts;
use np_on_sites::law_source_runs;
use np_safety::law_runs_well;
use np_serial::SerialRun;
use np_syntax::{Event, List, LowProgram, Memory, Text};
use np_verdict::{Refusal, report};
use np_words::Infrastructure;
use run_choices::{run_seeded, run_seeded_low};
use std::alloc::Global;

/// Makes the run that is wanted, and what is written of it.
pub fn run_shown<T: Texts>(alloc: Global, texts: &mut T, single: &Single) -> Result<Shown, Refusal>
    ensures { IfOk result (IsRunShown single.now.way) }
{
    let checked = source_of(alloc, texts, &single.file)?;
    let shown = shown_of(alloc, single.way, single.history, &checked);
    drop(checked);
    match shown {
        Ok(shown) => Ok(shown),
        Err(Memory) => Err(Refusal::Memory),
    }
}

/// The run of a checked source by a way, and what is written of it, with its history or without it.
pub fn shown_of(alloc: Global, way: Way, history: bool, checked: &Checked) -> Result<Shown, Memory>
    ensures { IfOk result (IsReport checked.now way) }
{
    let run = run_by(alloc, way, checked)?;
    let shown = match between_of(alloc, way, history, run.events.as_slice()) {
        Ok(between) => written(alloc, way, checked, between.as_slice(), &run),
        Err(memory) => Err(memory),
    };
    drop(run);
    shown
}

/// The run of a checked source by a way.
pub fn run_by(alloc: Global, way: Way, checked: &Checked) -> Result<SerialRun, Memory>
    ensures { IfOk result (IsRun checked.now way) }
{
    match way.level {
        Level::High => run_high(alloc, way, checked),
        Level::Low => match lowered(alloc, way.infrastructure, checked) {
            Ok(low) => {
                let run = run_low(alloc, way, checked, &low);
                drop(low);
                run
            }
            Err(memory) => Err(memory),
        },
    }
}

/// The run of a source itself by a way.
fn run_high(alloc: Global, way: Way, checked: &Checked) -> Result<SerialRun, Memory>
    ensures { IfOk result (IsHighRun checked.now way) }
{
    law_runs_well();
    match run_seeded(alloc, checked.program(), way.seed, way.budget) {
        Ok(run) => Ok(run),
        Err(memory) => Err(memory),
    }
}

/// The run of the low program of a source by a way.
fn run_low(
    alloc: Global,
    way: Way,
    checked: &Checked,
    low: &LowProgram,
) -> Result<SerialRun, Memory>
    requires runs { RunsWell (start_low low.now) low.now.at }
    requires low { low.now ≡ low_by way.infrastructure checked.now }
    ensures { IfOk result (IsLowRun checked.now way) }
{
    law_source_runs();
    let _ = checked.program();
    match run_seeded_low(alloc, low, way.seed, way.budget) {
        Ok(run) => Ok(run),
        Err(memory) => Err(memory),
    }
}

/// What is written of a run of a source, with this text between.
fn written(
    alloc: Global,
    way: Way,
    checked: &Checked,
    between: &[u8],
    run: &SerialRun,
) -> Result<Shown, Memory>
    requires { IsRun checked.now way run.now }
    ensures { IfOk result (IsReport checked.now way) }
{
    let said = run.last.get().said();
    let text = report(alloc, &checked.program().sites, said, between, run.end)?;
    let _ = way.budget;
    Ok(Shown { text, end: run.end })
}

/// The history of a run, as np writes it at its level, where it is wanted.
fn between_of(alloc: Global, way: Way, history: bool, events: &[Event]) -> Result<Text, Memory> {
    if !history {
        return Ok(List::new(alloc));
    }
    match (way.level, way.infrastructure) {
        (Level::High, _) => write_high(alloc, events),
        (Level::Low, Infrastructure::Central) => write_history(alloc, events),
        (Level::Low, Infrastructure::Cache) => write_history_1(alloc, events),
    }
}
