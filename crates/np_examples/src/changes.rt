//! The calls that replay the history of a low program's run, as it is and changed.

use super::case::Case;
use super::counting::count_of;
use super::trial::{Check, Then, Trial, Wanted, Way, add};
use history_text::write_history;
use np_example_files::{
    Change, ExampleFail, between, early_place, exchanged, moved, next_unlike, sent_place, without,
};
use np_syntax::{Event, Kind, List, Memory, Text};
use std::alloc::{AllocError, Global};

/// The refusal of events of which so many of the first are a run, and one more is none.
pub(crate) const NOT_A_RUN: &str = "21 NotARun";

/// The greatest budget that a run is cut off by.
const LAST: usize = 60;

/// Adds the calls of a change at a place.
pub(crate) fn add_change(
    alloc: Global,
    case: &Case<'_>,
    change: Change,
    place: usize,
    left: &mut Vec<Trial>,
) -> Result<(), ExampleFail> {
    let check = Check::Changed(change, place);
    let changed = match change {
        Change::Whole | Change::Cut => return add_cut(alloc, case, check, place, left),
        Change::Past => return add_past(alloc, case, check, place, left),
        Change::Resumed => return add_runs(alloc, case, check, place, left),
        Change::Without => without_one(alloc, case, place)?,
        Change::Swapped => swapped(alloc, case, place)?,
        Change::Early => moved_early(alloc, case, place, early_place(case.events, place))?,
        Change::Landed => moved_early(alloc, case, place, sent_place(case.events, place))?,
    };
    add_changed(alloc, case, check, changed, left)
}

/// The history of these events, to be read as the text `h`.
fn history_of(alloc: Global, events: &[Event]) -> Result<Option<Text>, Memory> {
    Ok(Some(write_history(alloc, events)?))
}

/// Adds the call that replays these events.
pub(crate) fn add_replay(
    alloc: Global,
    case: &Case<'_>,
    check: Check,
    events: &[Event],
    wanted: Result<Wanted, AllocError>,
    then: Then,
    left: &mut Vec<Trial>,
) -> Result<(), ExampleFail> {
    let option = case.option();
    let words = format!(in alloc; "replay a h{option}");
    add(left, check, words, history_of(alloc, events), wanted, then)
}

/// The first events are a run, which prints the first lines.
fn add_cut(
    alloc: Global,
    case: &Case<'_>,
    check: Check,
    place: usize,
    left: &mut Vec<Trial>,
) -> Result<(), ExampleFail> {
    let events = between(case.events, 0, place);
    let lines = first_lines(case.report, count_of(events, Kind::Print));
    let wanted = Wanted::run(alloc, lines, place);
    add_replay(alloc, case, check, events, wanted, Then::Nothing, left)
}

/// So many of the first lines of a text, each with its line feed.
fn first_lines(text: &str, count: usize) -> &str {
    let mut rest = text;
    for _ in 0..count {
        rest = match rest.split_once('\n') {
            Some((_, rest)) => rest,
            None => "",
        };
    }
    text.strip_suffix(rest).unwrap_or(text)
}

/// The changed events of a run, what is wanted of replaying them, and what follows.
#[derive(Drop)]
struct Changed {
    events: List<Event>,
    wanted: Wanted,
    then: Then,
}

/// Adds the call that replays events that are changed, if they are.
fn add_changed(
    alloc: Global,
    case: &Case<'_>,
    check: Check,
    changed: Option<Changed>,
    left: &mut Vec<Trial>,
) -> Result<(), ExampleFail> {
    match changed {
        Some(changed) => {
            let Changed {
                events,
                wanted,
                then,
            } = changed;
            add_replay(
                alloc,
                case,
                check,
                events.as_slice(),
                Ok(wanted),
                then,
                left,
            )
        }
        None => Ok(()),
    }
}

/// Events that are refused at this index.
fn refused_at(alloc: Global, events: List<Event>, at: usize) -> Result<Changed, ExampleFail> {
    Ok(Changed {
        events,
        wanted: Wanted::refused(alloc, NOT_A_RUN, at)?,
        then: Then::Nothing,
    })
}

/// The events but one are a run, or stop being one behind it, at the index that is answered.
fn without_one(
    alloc: Global,
    case: &Case<'_>,
    place: usize,
) -> Result<Option<Changed>, ExampleFail> {
    let events = without(alloc, case.events, place)?;
    Ok(Some(Changed {
        wanted: Wanted::RunOrStop {
            count: events.len(),
            least: place,
        },
        events,
        then: Then::Stop,
    }))
}

/// The event that is brought forward is the first that is not enabled: at its new place its actor does something else.
fn swapped(alloc: Global, case: &Case<'_>, place: usize) -> Result<Option<Changed>, ExampleFail> {
    match next_unlike(case.events, place) {
        Some(later) => {
            let events = exchanged(alloc, case.events, place, later)?;
            Ok(Some(refused_at(alloc, events, place)?))
        }
        None => Ok(None),
    }
}

/// The Arrive or the Land that is brought forward, if one is, is the first event that is not enabled: at its new place its agent or
/// its packet is not under way.
fn moved_early(
    alloc: Global,
    case: &Case<'_>,
    place: usize,
    earlier: Option<usize>,
) -> Result<Option<Changed>, ExampleFail> {
    match earlier {
        Some(earlier) => {
            let events = moved(alloc, case.events, earlier, place)?;
            Ok(Some(refused_at(alloc, events, earlier)?))
        }
        None => Ok(None),
    }
}

/// The past of a line, counted from 1, is written with that line, and is a run that prints it alone; and one line more is refused. Any
/// other number asks for nothing.
fn add_past(
    alloc: Global,
    case: &Case<'_>,
    check: Check,
    line: usize,
    left: &mut Vec<Trial>,
) -> Result<(), ExampleFail> {
    let printed = count_of(case.events, Kind::Print);
    if line == 0 || line > printed.saturating_add(1) {
        return Ok(());
    }
    let option = case.option();
    let words = format!(in alloc; "past a h --line {line}{option}");
    let history = history_of(alloc, case.events);
    if line <= printed {
        add(
            left,
            check,
            words,
            history,
            Ok(Wanted::Past(line)),
            Then::Replay,
        )
    } else {
        let wanted = Wanted::refused(alloc, "24 NoLine", printed);
        add(left, check, words, history, wanted, Then::Nothing)
    }
}

/// The run on sites that a budget cuts off is resumed, with each kind of links. Any budget but those from 1 to 60 asks for nothing.
fn add_runs(
    alloc: Global,
    case: &Case<'_>,
    check: Check,
    budget: usize,
    left: &mut Vec<Trial>,
) -> Result<(), ExampleFail> {
    if budget == 0 || budget > LAST {
        return Ok(());
    }
    for links in ["tray", "rings", "inbox"] {
        add_run(alloc, case, check, Way { links, budget }, left)?;
    }
    Ok(())
}

/// The run is cut off so.
fn add_run(
    alloc: Global,
    case: &Case<'_>,
    check: Check,
    way: Way,
    left: &mut Vec<Trial>,
) -> Result<(), ExampleFail> {
    let options = options_of(alloc, case, way)?;
    let budget = way.budget;
    let words = format!(in alloc; "run a {options} --budget {budget}");
    add(
        left,
        check,
        words,
        Ok(None),
        Ok(Wanted::Sites),
        Then::Resume(way),
    )
}

/// The options of such a run: with one budget for each kind of links on threads, and with the others one site after another.
pub(crate) fn options_of(alloc: Global, case: &Case<'_>, way: Way) -> Result<String, AllocError> {
    let Way { links, budget } = way;
    let on_threads = match budget {
        20 => links == "tray",
        40 => links == "rings",
        60 => links == "inbox",
        _ => false,
    };
    let serial = if on_threads { "" } else { " --serial" };
    let option = case.option();
    format!(in alloc; "--history --links {links}{serial}{option}")
}
