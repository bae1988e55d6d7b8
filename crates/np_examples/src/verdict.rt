//! Whether what came is what was wanted.

use super::case::Case;
use super::trial::{Came, Expected, Trial, Wanted, run_text};
use np_example_files::{Example, Outcome};
use np_run::{BAD_HISTORY, BUDGET_SPENT, DONE};
use std::alloc::{AllocError, Global};

/// Whether what came of a call is what is wanted of it.
pub(crate) fn holds(
    alloc: Global,
    case: &Case<'_>,
    trial: &Trial,
    came: &Came<'_>,
) -> Result<bool, AllocError> {
    match &trial.wanted {
        Wanted::Said => Ok(meets(case.example, came)),
        Wanted::Lines => Ok(same_lines(case.report, came.text())),
        Wanted::Exactly(expected) => Ok(is_expected(expected, came)),
        Wanted::RunOrStop { count, least } => is_run_or_stop(alloc, came, *count, *least),
        Wanted::Past(line) => Ok(is_past(case, came, *line)),
        Wanted::Sites => Ok(is_on_sites(case, trial, came)),
        Wanted::WholeSites => Ok(is_on_sites(case, trial, came) && is_whole(alloc, case, came)?),
    }
}

fn is_expected(expected: &Expected, came: &Came<'_>) -> bool {
    came.status == expected.status
        && came.out == expected.out.as_bytes()
        && came.err == expected.err.as_bytes()
}

/// Whether the last line is that so many events are a run, or the history is refused at this index or behind it.
fn is_run_or_stop(
    alloc: Global,
    came: &Came<'_>,
    count: usize,
    least: usize,
) -> Result<bool, AllocError> {
    match stop_of(came) {
        Some(index) => Ok(came.status == BAD_HISTORY && came.out.is_empty() && index >= least),
        None => {
            let last = run_text(alloc, "", count)?;
            Ok(came.status == DONE && came.text().ends_with(last.as_str()))
        }
    }
}

/// The index at which it is answered that the events are no run.
pub(crate) fn stop_of(came: &Came<'_>) -> Option<usize> {
    let err = std::str::from_utf8(came.err).unwrap_or("");
    number_between(err, "np: 21 NotARun at ", "\n")
}

/// What a call writes with a history.
#[derive(Clone, Copy)]
struct Written<'a> {
    /// The lines that are printed.
    said: &'a str,
    /// The lines of the events.
    events: &'a str,
    last: &'a str,
}

/// What is written, where the history begins with this line.
fn written_of<'a>(text: &'a str, first: &str) -> Option<Written<'a>> {
    let (said, rest) = text.split_once(first)?;
    let (events, last) = rest.split_once("end\n")?;
    Some(Written { said, events, last })
}

/// The lines in front of a history.
pub(crate) fn lines_in_front<'a>(case: &Case<'_>, text: &'a str) -> &'a str {
    match text.split_once(case.first_line()) {
        Some((lines, _)) => lines,
        None => "",
    }
}

/// How many events a past says that it has.
pub(crate) fn past_count(past: &str) -> Option<usize> {
    number_between(past.lines().last()?, "past of ", " events")
}

/// The number that stands between these.
fn number_between(text: &str, before: &str, after: &str) -> Option<usize> {
    let number = text.strip_prefix(before)?.strip_suffix(after)?;
    number.parse::<usize>().ok()
}

/// The line of that number that the low program's run prints.
pub(crate) fn line_of<'a>(case: &Case<'a>, line: usize) -> &'a str {
    case.report
        .lines()
        .nth(line.saturating_sub(1))
        .unwrap_or("")
}

/// Whether the past of a line was written.
fn is_past(case: &Case<'_>, came: &Came<'_>, line: usize) -> bool {
    match written_of(came.text(), case.first_line()) {
        Some(Written { said, last, .. }) => {
            came.status == DONE
                && came.err.is_empty()
                && said.strip_suffix('\n') == Some(line_of(case, line))
                && past_count(last).is_some()
        }
        None => false,
    }
}

/// Whether a run on sites goes on from what was saved, if something was, and is one of the source.
fn is_on_sites(case: &Case<'_>, trial: &Trial, came: &Came<'_>) -> bool {
    let first = case.first_line();
    match written_of(came.text(), first) {
        Some(written) => {
            (came.status == BUDGET_SPENT || came.status == DONE)
                && came.reads_off == Some(true)
                && begins_with(&written, trial.saved(), first)
        }
        None => false,
    }
}

/// Whether a run on sites is at rest, with the lines and as many events as the low program's run.
fn is_whole(alloc: Global, case: &Case<'_>, came: &Came<'_>) -> Result<bool, AllocError> {
    match written_of(came.text(), case.first_line()) {
        Some(Written { said, last, .. }) => {
            let printed = format!(in alloc; "{said}{last}")?;
            Ok(
                came.status == DONE
                    && came.events == Some(case.events.len())
                    && same_lines(printed.as_str(), case.report),
            )
        }
        None => Ok(false),
    }
}

/// Whether what is written begins with what was saved.
fn begins_with(written: &Written<'_>, saved: &str, first: &str) -> bool {
    match written_of(saved, first) {
        Some(saved) => {
            written.said.starts_with(saved.said) && written.events.starts_with(saved.events)
        }
        None => saved.is_empty(),
    }
}

/// Whether the call did what the example wants.
fn meets(example: &Example, came: &Came<'_>) -> bool {
    came.status == example.status
        && meets_count(example.events, came.events)
        && meets_count(example.opens, came.opens)
        && meets_count(example.first, came.first)
        && meets_count(example.moves, came.moves)
        && came.reads_off != Some(false)
        && meets_out(example, came)
        && meets_err(example, came.err)
}

fn meets_count(wanted: Option<usize>, came: Option<usize>) -> bool {
    match wanted {
        Some(count) => came == Some(count),
        None => true,
    }
}

fn meets_err(example: &Example, bytes: &[u8]) -> bool {
    match example.text("err") {
        Some(wanted) => bytes == wanted,
        None => bytes == example.err.as_bytes(),
    }
}

fn meets_out(example: &Example, came: &Came<'_>) -> bool {
    match example.text("out") {
        Some(wanted) => came.out == wanted,
        None => came.is_text() && meets_one(example, came.text()),
    }
}

/// Whether the text is one of the outcomes.
fn meets_one(example: &Example, text: &str) -> bool {
    for outcome in example.others.iter() {
        if meets_outcome(example, outcome, text) {
            return true;
        }
    }
    meets_outcome(example, &example.outcome, text)
}

/// Whether the text is the outcome; or, where just the count of lines is given, ends with it and has so many lines.
fn meets_outcome(example: &Example, outcome: &Outcome, text: &str) -> bool {
    match (text.strip_suffix(outcome.ordered.as_str()), example.lines) {
        (Some(_), Some(count)) => text.lines().count() == count,
        (Some(front), None) => same_lines(front, outcome.unordered.as_str()),
        (None, _) => false,
    }
}

/// Whether two texts have the same lines, in any order.
fn same_lines(one: &str, other: &str) -> bool {
    one.lines().count() == other.lines().count() && are_in(one, other)
}

/// Whether each line stands in both texts as often.
fn are_in(one: &str, other: &str) -> bool {
    for line in one.lines() {
        if times_in(one, line) != times_in(other, line) {
            return false;
        }
    }
    true
}

fn times_in(text: &str, line: &str) -> usize {
    text.lines().filter(|found| *found == line).count()
}
