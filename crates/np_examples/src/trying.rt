//! Trying a case: each call that its example asks for, and each that follows one.

use super::calling::{Sinks, seen_into};
use super::case::Case;
use super::changes::add_change;
use super::following::add_following;
use super::low_run::{LowMade, run_of_low};
use super::report::tell_failure;
use super::tally::Tally;
use super::trial::{Came, Check, Then, Trial, Wanted};
use super::verdict::holds;
use np_example_files::{Change, ExampleFail};
use np_run::Told;
use std::alloc::Global;
use std::sync::Wait;
use std::thread::Threads;

/// The words of the run at the high level that a low run is held against.
const HIGH_WORDS: &str = "high a --budget 200000";

/// Tries each call of a case, the run of its low program, and the histories of that run.
pub(crate) fn try_case<R: Print + Threads + Wait + Sync>(
    rt: &R,
    alloc: Global,
    case: &Case<'_>,
) -> Result<Tally, ExampleFail> {
    let mut tally = try_calls(rt, alloc, case)?;
    if case.example.runs_low || !case.example.replays.is_empty() {
        tally.add(try_low(rt, alloc, case)?);
    }
    Ok(tally)
}

/// Tries each call of a case by its words.
fn try_calls<R: Print + Threads + Wait + Sync>(
    rt: &R,
    alloc: Global,
    case: &Case<'_>,
) -> Result<Tally, ExampleFail> {
    let then = if case.example.replays_itself {
        Then::Replay
    } else {
        Then::Nothing
    };
    let mut tally = Tally::new();
    for (index, words) in case.example.calls.iter().enumerate() {
        let trial = trial_of(
            alloc,
            Check::Words(index),
            words.as_str(),
            Wanted::Said,
            then,
        )?;
        tally.count(passes(rt, alloc, case, trial)?);
    }
    Ok(tally)
}

/// A call of what an example says.
fn trial_of(
    alloc: Global,
    check: Check,
    words: &str,
    wanted: Wanted,
    then: Then,
) -> Result<Trial, ExampleFail> {
    Ok(Trial {
        check,
        words: String::from_str(alloc, words)?,
        history: None,
        wanted,
        then,
    })
}

/// Tries the run of the low program of a case, and its histories.
fn try_low<R: Print + Threads + Wait + Sync>(
    rt: &R,
    alloc: Global,
    case: &Case<'_>,
) -> Result<Tally, ExampleFail> {
    let made = run_of_low(alloc, case)?;
    let tally = try_low_run(rt, alloc, case, &made);
    drop(made);
    tally
}

/// Tries this run of its low program.
fn try_low_run<R: Print + Threads + Wait + Sync>(
    rt: &R,
    alloc: Global,
    case: &Case<'_>,
    made: &LowMade,
) -> Result<Tally, ExampleFail> {
    let came = made.came();
    let case = Case {
        events: made.events.as_slice(),
        report: came.text(),
        ..*case
    };
    let mut tally = Tally::new();
    if case.example.runs_low {
        tally.count(passes_low(rt, alloc, &case, &came)?);
    }
    for change in case.example.replays.iter() {
        tally.count(passes_changed(rt, alloc, &case, *change)?);
    }
    Ok(tally)
}

/// Whether the run does what the example wants; and whether the run at the high level prints its lines, in any order, where it has to.
fn passes_low<R: Print + Threads + Wait + Sync>(
    rt: &R,
    alloc: Global,
    case: &Case<'_>,
    came: &Came<'_>,
) -> Result<bool, ExampleFail> {
    let low = trial_of(alloc, Check::Low, "low run", Wanted::Said, Then::Nothing)?;
    let passed = judge(rt, alloc, case, &low, came)?;
    Ok(passed && (!case.example.as_high || passes_high(rt, alloc, case)?))
}

/// Whether the run at the high level prints the lines of the low program's run, in any order.
fn passes_high<R: Print + Threads + Wait + Sync>(
    rt: &R,
    alloc: Global,
    case: &Case<'_>,
) -> Result<bool, ExampleFail> {
    let high = trial_of(alloc, Check::Low, HIGH_WORDS, Wanted::Lines, Then::Nothing)?;
    passes(rt, alloc, case, high)
}

/// Whether a change of the history of the low program's run is answered as it has to be at each place.
fn passes_changed<R: Print + Threads + Wait + Sync>(
    rt: &R,
    alloc: Global,
    case: &Case<'_>,
    change: Change,
) -> Result<bool, ExampleFail> {
    let count = case.events.len();
    let first = if change == Change::Whole { count } else { 0 };
    for place in first..=count {
        if !passes_at(rt, alloc, case, change, place)? {
            return Ok(false);
        }
    }
    Ok(true)
}

/// Whether the change at this place is.
fn passes_at<R: Print + Threads + Wait + Sync>(
    rt: &R,
    alloc: Global,
    case: &Case<'_>,
    change: Change,
    place: usize,
) -> Result<bool, ExampleFail> {
    let mut left = Vec::new(alloc);
    add_change(alloc, case, change, place, &mut left)?;
    pass_all(rt, alloc, case, &mut left)
}

/// Whether a call gives what is wanted, and each that follows it.
fn passes<R: Print + Threads + Wait + Sync>(
    rt: &R,
    alloc: Global,
    case: &Case<'_>,
    trial: Trial,
) -> Result<bool, ExampleFail> {
    let mut left = Vec::new(alloc);
    left.push(trial)?;
    pass_all(rt, alloc, case, &mut left)
}

/// Whether each of these calls gives what is wanted, and each that follows one of them.
fn pass_all<R: Print + Threads + Wait + Sync>(
    rt: &R,
    alloc: Global,
    case: &Case<'_>,
    left: &mut Vec<Trial>,
) -> Result<bool, ExampleFail> {
    for _ in 0..u64::MAX {
        let Some(trial) = left.pop() else {
            return Ok(true);
        };
        if !is_passed(rt, alloc, case, &trial, left)? {
            return Ok(false);
        }
    }
    Ok(true)
}

/// Whether a call gives what is wanted. If so, what follows it is added.
fn is_passed<R: Print + Threads + Wait + Sync>(
    rt: &R,
    alloc: Global,
    case: &Case<'_>,
    trial: &Trial,
    left: &mut Vec<Trial>,
) -> Result<bool, ExampleFail> {
    let mut sinks = Sinks::new(alloc, &case.example.devices)?;
    let (told, reading) = seen_into(rt, alloc, case, trial, &mut sinks)?;
    let Told { status, events } = told;
    let came = Came {
        status,
        events: events.map(|count| count as usize),
        opens: reading.map(|reading| reading.opens),
        first: reading.and_then(|reading| reading.first),
        moves: reading.and_then(|reading| reading.moves),
        reads_off: reading.map(|reading| reading.is_run),
        out: sinks.out.bytes(),
        err: sinks.err.bytes(),
    };
    let passed = judge(rt, alloc, case, trial, &came)?;
    if passed {
        add_following(alloc, case, trial, &came, left)?;
    }
    Ok(passed)
}

/// Whether what came of a call is what is wanted. Where it is not, both are printed.
fn judge(
    rt: &impl Print,
    alloc: Global,
    case: &Case<'_>,
    trial: &Trial,
    came: &Came<'_>,
) -> Result<bool, ExampleFail> {
    let passed = holds(alloc, case, trial, came)?;
    if !passed {
        tell_failure(rt, case, trial, came)?;
    }
    Ok(passed)
}
