//! From what is wanted to the page of a run.

ghost use Rattle.std.specs.Prelude.{◌≤◌, length, IfOk};
ghost use Rattle.np_syntax.specs.declared.limits.TheConstants.{LONGEST_SOURCE};
ghost use Rattle.np_calculus.specs.Runs.{RunsWell};
ghost use Rattle.np_calculus.specs.Starts.{start_low};
ghost use Rattle.np_on_sites.specs.ByInfrastructure.{lift_by};
ghost use Rattle.look_sources.specs.Looked.{IsFound};
ghost use Rattle.look_pages.specs.ShownPages.{IsPageOf, IsShownOf, IsShownPage, IsShownWith};

use super::drafts::{About, text_for, told_of};
use super::sides::{high_side, join, low_side};
use look_sources::{Run, Shown, history_of, lowered, read_text, run_of, twins_by};
use look_words::PageWanted;
use np_check::Checked;
use np_io::Texts;
use np_syntax::{End, LONGEST_SOURCE, LowProgram, Memory, Text};
use np_verdict::{Refusal, checked_source, tokens_of};
use std::alloc::Global;

/// Makes the page that is wanted.
pub fn page<T: Texts>(alloc: Global, texts: &mut T, wanted: PageWanted) -> Result<Shown, Refusal>
    ensures { IfOk result (IsShownPage wanted) }
{
    let bytes = read_text(alloc, texts, &wanted.file, LONGEST_SOURCE, Refusal::TooLong)?;
    let source = bytes.as_slice();
    let checked = checked_source(alloc, source)?;
    let made = of_history(alloc, texts, &wanted, source, &checked);
    drop(checked);
    made
}

/// The page of the history of a source that is named, or of a run of it that is made.
fn of_history<T: Texts>(
    alloc: Global,
    texts: &mut T,
    wanted: &PageWanted,
    bytes: &[u8],
    checked: &Checked,
) -> Result<Shown, Refusal>
    requires { length bytes.now ≤ LONGEST_SOURCE }
    ensures { IfOk result (IsShownWith bytes.now wanted.now) }
{
    match history_of(alloc, texts, &wanted.history) {
        Ok(history) => of_source(alloc, wanted, bytes, history, checked),
        Err(refusal) => Err(refusal),
    }
}

/// The page of a run of a source: of this one, or of one that is made.
fn of_source(
    alloc: Global,
    wanted: &PageWanted,
    bytes: &[u8],
    history: Option<Run>,
    checked: &Checked,
) -> Result<Shown, Refusal>
    requires short { length bytes.now ≤ LONGEST_SOURCE }
    requires found { IsFound wanted.now.history history }
    ensures { IfOk result (IsShownWith bytes.now wanted.now) }
{
    let _ = checked.program();
    match lowered(alloc, wanted.infrastructure, checked) {
        Ok(low) => {
            let made = of_program(alloc, wanted, bytes, history, checked, &low);
            drop(low);
            made
        }
        Err(Memory) => Err(Refusal::Memory),
    }
}

/// The same, where the source is translated.
fn of_program(
    alloc: Global,
    wanted: &PageWanted,
    bytes: &[u8],
    history: Option<Run>,
    checked: &Checked,
    low: &LowProgram,
) -> Result<Shown, Refusal>
    requires runs { RunsWell (start_low low.now) low.now.at }
    requires short { length bytes.now ≤ LONGEST_SOURCE }
    ensures { IfOk result (IsShownOf bytes.now wanted.now history low.now) }
{
    match run_of(alloc, wanted.budget, wanted.seed, history, low) {
        Ok(run) => {
            let text = page_of(alloc, wanted, bytes, checked, low, &run)?;
            Ok(Shown { text, end: run.end })
        }
        Err(Memory) => Err(Refusal::Memory),
    }
}

/// How a run ended, in words.
fn end_words(wanted: &PageWanted, end: End) -> &'static [u8] {
    match (&wanted.history, end) {
        (Some(_), _) => b"end of the history",
        (None, End::Rest) => b"at rest",
        (None, End::Spent) => b"budget spent",
    }
}

/// The page of a run of the low program of a source.
fn page_of(
    alloc: Global,
    wanted: &PageWanted,
    bytes: &[u8],
    checked: &Checked,
    low: &LowProgram,
    run: &Run,
) -> Result<Text, Refusal>
    requires runs { RunsWell (start_low low.now) low.now.at }
    requires short { length bytes.now ≤ LONGEST_SOURCE }
    ensures { IfOk result (IsPageOf bytes.now (lift_by wanted.now.infrastructure run.now.events) run.now.events) }
{
    let events = run.events.as_slice();
    let mut high = high_side(alloc, wanted.infrastructure, checked, events)?;
    let mut below = low_side(alloc, low, events)?;
    let twins = twins_by(alloc, wanted.infrastructure, events)?;
    let Ok(()) = join(alloc, twins.as_slice(), &mut high, &mut below) else {
        return Err(Refusal::Memory);
    };
    let tokens = tokens_of(alloc, bytes)?;
    let about = About {
        title: wanted.file.text().as_bytes(),
        sites: low.sites.as_slice(),
        end: end_words(wanted, run.end),
    };
    let main = &checked.program().main;
    let steps = high.followed.steps.as_slice();
    let Ok(told) = told_of(alloc, bytes, tokens.as_slice(), main, steps) else {
        return Err(Refusal::Memory);
    };
    match text_for(alloc, &about, told, &high, &below) {
        Ok(text) => Ok(text),
        Err(Memory) => Err(Refusal::Memory),
    }
}
