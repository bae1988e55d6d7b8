//! From what is wanted to the picture of a run.

ghost use Rattle.std.specs.Prelude.{IfOk};
ghost use Rattle.np_calculus.specs.Runs.{RunsWell};
ghost use Rattle.np_calculus.specs.Starts.{start_low};
ghost use Rattle.std.specs.Prelude.{◌≡◌};
ghost use Rattle.np_on_sites.specs.ByInfrastructure.{low_by};
ghost use Rattle.look_sources.specs.Looked.{IsFound};
ghost use Rattle.look_pictures.specs.Looks.{IsDrawn, IsShown, IsShownAlone, IsShownOf, IsViewed, IsViewedAlone, level_seed, source_seed};

use super::levels::{both_levels, one_level, part_of_level, part_of_source, whole_source};
use look_sources::{Run, Shown, binders_of, history_of, lowered, read_text, run_of};
use look_words::{Level, View, Wanted};
use np_check::Checked;
use np_io::Texts;
use np_safety::law_runs_well;
use np_syntax::{Event, LONGEST_SOURCE, LowProgram, Memory, Text};
use np_verdict::{Refusal, checked_source};
use run_choices::run_seeded;
use std::alloc::Global;

/// Makes the picture that is wanted.
pub fn picture<T: Texts>(alloc: Global, texts: &mut T, wanted: Wanted) -> Result<Shown, Refusal>
    ensures { IfOk result (IsDrawn (source_seed wanted.seed wanted.view) wanted) }
{
    let bytes = read_text(alloc, texts, &wanted.file, LONGEST_SOURCE, Refusal::TooLong)?;
    let checked = checked_source(alloc, bytes.as_slice())?;
    let made = match source_seed(wanted.seed, wanted.view) {
        Some(seed) => alone(alloc, &wanted, seed, bytes.as_slice(), &checked),
        None => of_history(alloc, texts, &wanted, bytes.as_slice(), &checked),
    };
    drop(checked);
    made
}

/// The seed, where what is looked at is what the source says.
fn level_seed(seed: Option<u64>, level: Level) -> Option<u64>
    ensures { result ≡ level_seed seed level }
{
    match level {
        Level::High => seed,
        Level::Low => None,
    }
}

/// The seed of a run of the source by itself, if such a run is wanted.
fn source_seed(seed: Option<u64>, view: View) -> Option<u64>
    ensures { result ≡ source_seed seed view }
{
    match view {
        View::One(level) => level_seed(seed, level),
        View::Part(level, _) => level_seed(seed, level),
        View::Both => None,
    }
}

/// The picture of a run of a source by itself, in which each event is chosen by this seed.
fn alone(
    alloc: Global,
    wanted: &Wanted,
    seed: u64,
    bytes: &[u8],
    checked: &Checked,
) -> Result<Shown, Refusal>
    ensures { IfOk result (IsShownAlone seed wanted.now) }
{
    law_runs_well();
    match run_seeded(alloc, checked.program(), seed, wanted.budget) {
        Ok(run) => {
            let text = picture_alone(alloc, wanted, bytes, checked, run.events.as_slice())?;
            Ok(Shown { text, end: run.end })
        }
        Err(Memory) => Err(Refusal::Memory),
    }
}

/// The picture of events of a source, as it is wanted.
fn picture_alone(
    alloc: Global,
    wanted: &Wanted,
    bytes: &[u8],
    checked: &Checked,
    events: &[Event],
) -> Result<Text, Refusal>
    ensures { IfOk result (IsViewedAlone wanted.now.view events.now) }
{
    let binders = binders_of(alloc, bytes, &checked.program().main);
    match wanted.view {
        View::One(_) => whole_source(alloc, wanted, binders, checked, events),
        View::Part(_, stretch) => part_of_source(alloc, wanted, stretch, binders, checked, events),
        View::Both => whole_source(alloc, wanted, binders, checked, events),
    }
}

/// The picture of the history of a source that is named, or of a run of it that is made.
fn of_history<T: Texts>(
    alloc: Global,
    texts: &mut T,
    wanted: &Wanted,
    bytes: &[u8],
    checked: &Checked,
) -> Result<Shown, Refusal>
    ensures { IfOk result (IsShown wanted.now) }
{
    match history_of(alloc, texts, &wanted.history) {
        Ok(history) => of_source(alloc, wanted, bytes, history, checked),
        Err(refusal) => Err(refusal),
    }
}

/// The picture of a run of a source: of this one, or of one that is made.
fn of_source(
    alloc: Global,
    wanted: &Wanted,
    bytes: &[u8],
    history: Option<Run>,
    checked: &Checked,
) -> Result<Shown, Refusal>
    requires { IsFound wanted.now.history history }
    ensures { IfOk result (IsShown wanted.now) }
{
    let _ = checked.program();
    match lowered(alloc, wanted.infrastructure, checked) {
        Ok(low) => {
            let made = of_program(alloc, wanted, bytes, history, checked, &low);
            drop(low);
            made
        }
        Err(Memory) => Err(Refusal::Memory),
    }
}

/// The same, where the source is translated.
fn of_program(
    alloc: Global,
    wanted: &Wanted,
    bytes: &[u8],
    history: Option<Run>,
    checked: &Checked,
    low: &LowProgram,
) -> Result<Shown, Refusal>
    requires { RunsWell (start_low low.now) low.now.at }
    ensures { IfOk result (IsShownOf wanted.now history low.now) }
{
    match run_of(alloc, wanted.budget, wanted.seed, history, low) {
        Ok(run) => {
            let text = picture_of(alloc, wanted, bytes, checked, low, run.events.as_slice())?;
            Ok(Shown { text, end: run.end })
        }
        Err(Memory) => Err(Refusal::Memory),
    }
}

/// The picture of events of the low program of a source, as it is wanted.
fn picture_of(
    alloc: Global,
    wanted: &Wanted,
    bytes: &[u8],
    checked: &Checked,
    low: &LowProgram,
    events: &[Event],
) -> Result<Text, Refusal>
    requires { RunsWell (start_low low.now) low.now.at }
    ensures { IfOk result (IsViewed wanted.now.view wanted.now.infrastructure events.now) }
{
    let binders = binders_of(alloc, bytes, &checked.program().main);
    match wanted.view {
        View::One(level) => one_level(alloc, wanted, level, binders, checked, low, events),
        View::Part(level, stretch) => {
            part_of_level(alloc, wanted, level, stretch, binders, checked, low, events)
        }
        View::Both => both_levels(alloc, wanted, binders, checked, low, events),
    }
}
