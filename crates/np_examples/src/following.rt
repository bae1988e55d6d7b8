//! The calls that follow one that gave what was wanted.

use super::case::Case;
use super::changes::{NOT_A_RUN, add_replay, options_of};
use super::trial::{Came, Check, Then, Trial, Wanted, Way, add};
use super::verdict::{lines_in_front, past_count, stop_of};
use np_example_files::{ExampleFail, between, without};
use np_syntax::{List, Memory, Text};
use std::alloc::Global;

/// How many events more each site may make where a run is cut off once more.
const MORE: usize = 3;

/// Adds the calls that follow one of which this came.
pub(crate) fn add_following(
    alloc: Global,
    case: &Case<'_>,
    trial: &Trial,
    came: &Came<'_>,
    left: &mut Vec<Trial>,
) -> Result<(), ExampleFail> {
    match trial.then {
        Then::Nothing => Ok(()),
        Then::Replay => add_again(alloc, case, trial, came, left),
        Then::Stop => add_stop(alloc, case, trial.check, came, left),
        Then::Resume(way) => {
            add_end(alloc, case, trial.check, way, came, left)?;
            add_more(alloc, case, trial.check, way, came, left)
        }
        Then::End(way) => add_end(alloc, case, trial.check, way, came, left),
    }
}

/// What was written, to be read as a history.
fn written(alloc: Global, came: &Came<'_>) -> Result<Option<Text>, Memory> {
    Ok(Some(List::from_slice(alloc, came.out)?))
}

/// The history that was written is replayed: the lines in front of it are printed, and it is a run of so many events.
fn add_again(
    alloc: Global,
    case: &Case<'_>,
    trial: &Trial,
    came: &Came<'_>,
    left: &mut Vec<Trial>,
) -> Result<(), ExampleFail> {
    let (check, count) = match trial.check {
        Check::Words(index) => (Check::Itself(index), came.events),
        check => (check, past_count(came.text())),
    };
    let lines = lines_in_front(case, came.text());
    let wanted = Wanted::run(alloc, lines, count.unwrap_or(0));
    let option = case.option();
    let words = format!(in alloc; "replay a h{option}");
    add(
        left,
        check,
        words,
        written(alloc, came),
        wanted,
        Then::Nothing,
    )
}

/// Where the events but one stopped being a run, so many of the first are a run, and one more is none.
fn add_stop(
    alloc: Global,
    case: &Case<'_>,
    check: Check,
    came: &Came<'_>,
    left: &mut Vec<Trial>,
) -> Result<(), ExampleFail> {
    let (Check::Changed(_, place), Some(index)) = (check, stop_of(came)) else {
        return Ok(());
    };
    let events = without(alloc, case.events, place)?;
    let before = between(events.as_slice(), 0, index);
    let longer = between(events.as_slice(), 0, index.saturating_add(1));
    let is_run = Ok(Wanted::RunOrStop {
        count: index,
        least: index,
    });
    add_replay(alloc, case, check, before, is_run, Then::Nothing, left)?;
    let is_none = Wanted::refused(alloc, NOT_A_RUN, index);
    add_replay(alloc, case, check, longer, is_none, Then::Nothing, left)
}

/// The run that was written is resumed to its end: to rest, with the lines of the whole run and as many events.
fn add_end(
    alloc: Global,
    case: &Case<'_>,
    check: Check,
    way: Way,
    came: &Came<'_>,
    left: &mut Vec<Trial>,
) -> Result<(), ExampleFail> {
    let options = options_of(alloc, case, way)?;
    let words = format!(in alloc; "resume a h {options}");
    let wanted = Ok(Wanted::WholeSites);
    add(
        left,
        check,
        words,
        written(alloc, came),
        wanted,
        Then::Nothing,
    )
}

/// The run that was written is resumed with a few events more, and then once more to its end.
fn add_more(
    alloc: Global,
    case: &Case<'_>,
    check: Check,
    way: Way,
    came: &Came<'_>,
    left: &mut Vec<Trial>,
) -> Result<(), ExampleFail> {
    let options = options_of(alloc, case, way)?;
    let further = way.budget.saturating_add(MORE);
    let words = format!(in alloc; "resume a h {options} --budget {further}");
    let wanted = Ok(Wanted::Sites);
    add(
        left,
        check,
        words,
        written(alloc, came),
        wanted,
        Then::End(way),
    )
}
