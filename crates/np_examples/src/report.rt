//! What is printed of a call that did not do what was wanted.

use super::case::Case;
use super::trial::{Came, Check, Trial, Wanted};
use super::verdict::line_of;
use np_example_files::{Change, Example, Outcome};
use std::io;

/// The most bytes of a text that are printed.
const SHOWN: usize = 20_000;

/// Prints where the example stands, which check was made, what was called, what was wanted and what came.
pub(crate) fn tell_failure(
    rt: &impl Print,
    case: &Case<'_>,
    trial: &Trial,
    came: &Came<'_>,
) -> io::Result<()> {
    let (file, line) = (case.file, case.example.line);
    let title = case.example.title.as_str();
    println!(rt; "FAILED {file}:{line} {title}")?;
    tell_check(rt, case.example, trial.check)?;
    tell(rt, "words", trial.words.as_str())?;
    tell_text(rt, "source", case.source.unwrap_or(""))?;
    tell_wanted(rt, case, trial)?;
    tell_came(rt, came)
}

/// Prints a line of that name.
fn tell(rt: &impl Print, name: &str, line: &str) -> io::Result<()> {
    println!(rt; "  {name} | {line}")
}

/// Prints a number of that name.
fn tell_number(rt: &impl Print, name: &str, number: usize) -> io::Result<()> {
    println!(rt; "  {name}: {number}")
}

/// The same, if there is one.
fn tell_count(rt: &impl Print, name: &str, count: Option<usize>) -> io::Result<()> {
    match count {
        Some(count) => tell_number(rt, name, count),
        None => Ok(()),
    }
}

/// Prints the lines of a text.
fn tell_text(rt: &impl Print, name: &str, text: &str) -> io::Result<()> {
    for line in text.lines() {
        tell(rt, name, line)?;
    }
    Ok(())
}

/// Prints the lines of some bytes, the first of them where there are many.
fn tell_bytes(rt: &impl Print, name: &str, bytes: &[u8]) -> io::Result<()> {
    let shown = bytes.get(..SHOWN).unwrap_or(bytes);
    tell_text(rt, name, std::str::from_utf8(shown).unwrap_or("no text"))
}

/// Prints the line of the example that asks for the check, where it is not that of the words.
fn tell_check(rt: &impl Print, example: &Example, check: Check) -> io::Result<()> {
    match check {
        Check::Words(_) | Check::Low => Ok(()),
        Check::Itself(index) => tell(rt, "replays itself, after", words_at(example, index)),
        Check::Changed(change, number) => tell_number(rt, key_of(change), number),
    }
}

/// The words of that index.
fn words_at(example: &Example, index: usize) -> &str {
    match example.calls.get(index) {
        Some(words) => words.as_str(),
        None => "",
    }
}

/// The line by which an example asks for a change, and what the number of a place is of.
fn key_of(change: Change) -> &'static str {
    match change {
        Change::Whole => "replays whole, events",
        Change::Cut => "replays cut, place",
        Change::Without => "replays without one, place",
        Change::Swapped => "replays swapped, place",
        Change::Early => "replays early, place",
        Change::Landed => "replays landed early, place",
        Change::Past => "replays pasts, line",
        Change::Resumed => "resumes, budget",
    }
}

/// Prints what was wanted.
fn tell_wanted(rt: &impl Print, case: &Case<'_>, trial: &Trial) -> io::Result<()> {
    match &trial.wanted {
        Wanted::Said => tell_said(rt, case.example),
        Wanted::Lines => tell_text(rt, "wanted in any order", case.report),
        Wanted::Exactly(expected) => {
            tell_number(rt, "wanted status", expected.status as usize)?;
            tell_text(rt, "wanted out", expected.out.as_str())?;
            tell_text(rt, "wanted err", expected.err.as_str())
        }
        Wanted::RunOrStop { count, least } => {
            tell_number(rt, "wanted a run, of events", *count)?;
            tell_number(rt, "or no run, from an index of at least", *least)
        }
        Wanted::Past(line) => tell(rt, "wanted the past of", line_of(case, *line)),
        Wanted::Sites => tell_text(rt, "wanted a run on sites from", trial.saved()),
        Wanted::WholeSites => {
            tell_number(rt, "wanted a run at rest, of events", case.events.len())?;
            tell_text(rt, "wanted in any order", case.report)?;
            tell_text(rt, "wanted a run on sites from", trial.saved())
        }
    }
}

/// Prints the outcomes that an example says.
fn tell_said(rt: &impl Print, example: &Example) -> io::Result<()> {
    tell_number(rt, "wanted status", example.status as usize)?;
    tell_count(rt, "wanted a run, of events", example.events)?;
    tell_count(rt, "wanted letters opened", example.opens)?;
    tell_count(rt, "wanted events of the first site", example.first)?;
    tell_count(rt, "wanted moves in turn", example.moves)?;
    tell_count(rt, "wanted lines on out", example.lines)?;
    match example.text("out") {
        Some(bytes) => tell_bytes(rt, "wanted out", bytes)?,
        None => tell_outcomes(rt, example)?,
    }
    let err = example.text("err");
    tell_bytes(rt, "wanted err", err.unwrap_or(example.err.as_bytes()))
}

fn tell_outcomes(rt: &impl Print, example: &Example) -> io::Result<()> {
    for outcome in example.others.iter() {
        tell_outcome(rt, outcome)?;
        tell(rt, "or", "")?;
    }
    tell_outcome(rt, &example.outcome)
}

fn tell_outcome(rt: &impl Print, outcome: &Outcome) -> io::Result<()> {
    tell_text(rt, "wanted in any order", outcome.unordered.as_str())?;
    tell_text(rt, "wanted out", outcome.ordered.as_str())
}

/// Prints what came.
fn tell_came(rt: &impl Print, came: &Came<'_>) -> io::Result<()> {
    tell_number(rt, "came status", came.status as usize)?;
    tell_count(rt, "came a run, of events", came.events)?;
    tell_count(rt, "came letters opened", came.opens)?;
    tell_count(rt, "came events of the first site", came.first)?;
    tell_count(rt, "came moves in turn", came.moves)?;
    if came.reads_off == Some(false) {
        tell(
            rt,
            "what is read off",
            "no run of the source, or not as the sites are",
        )?;
    }
    tell_number(rt, "came lines on out", came.text().lines().count())?;
    tell_bytes(rt, "out", came.out)?;
    tell_bytes(rt, "err", came.err)
}
