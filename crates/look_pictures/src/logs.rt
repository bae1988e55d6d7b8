//! The log of a history, for ShiViz.

ghost use Rattle.std.specs.Prelude.{◌≡◌, Some, IfOk};
ghost use Rattle.np_calculus.specs.Runs.{RunsWell};
ghost use Rattle.np_calculus.specs.Starts.{start_low};
ghost use Rattle.np_on_sites.specs.ByInfrastructure.{low_by};
ghost use Rattle.look_sources.specs.Looked.{IsFound};
ghost use Rattle.look_pictures.specs.Looks.{IsLogOf, IsShownLog};

use look_sources::{Run, Shown, followed_low, history_of, lowered, read_text};
use look_words::Question;
use np_check::Checked;
use np_io::Texts;
use np_syntax::{Event, LONGEST_SOURCE, LowProgram, Memory, Text};
use np_verdict::{Refusal, checked_source};
use shiviz_log::log_text;
use std::alloc::Global;

/// Makes the log of the history that is named, or says why there is none.
pub fn log_of<T: Texts>(alloc: Global, texts: &mut T, question: Question) -> Result<Shown, Refusal>
    ensures { IfOk result (IsShownLog question) }
{
    let bytes = read_text(
        alloc,
        texts,
        &question.file,
        LONGEST_SOURCE,
        Refusal::TooLong,
    )?;
    let checked = checked_source(alloc, bytes.as_slice())?;
    let made = match history_of(alloc, texts, &question.history)? {
        Some(run) => logged(alloc, &question, &checked, &run),
        None => Err(Refusal::Usage),
    };
    drop(checked);
    made
}

/// The log of a history of a checked source.
fn logged(
    alloc: Global,
    question: &Question,
    checked: &Checked,
    run: &Run,
) -> Result<Shown, Refusal>
    requires { IsFound question.now.history (Some run.now) }
    ensures { IfOk result (IsShownLog question.now) }
{
    let _ = checked.program();
    match lowered(alloc, question.infrastructure, checked) {
        Ok(low) => {
            let made = log_text_of(alloc, &low, run.events.as_slice());
            drop(low);
            Ok(Shown {
                text: made?,
                end: run.end,
            })
        }
        Err(Memory) => Err(Refusal::Memory),
    }
}

/// The text of the log of events of a low program.
fn log_text_of(alloc: Global, low: &LowProgram, events: &[Event]) -> Result<Text, Refusal>
    requires { RunsWell (start_low low.now) low.now.at }
    ensures { IfOk result (IsLogOf low.now.sites events.now) }
{
    let followed = followed_low(alloc, low, events)?;
    match log_text(alloc, low.sites.as_slice(), followed.steps.as_slice()) {
        Ok(text) => Ok(text),
        Err(Memory) => Err(Refusal::Memory),
    }
}
