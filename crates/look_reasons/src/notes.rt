//! What is noted of a history beside a refusal: that it is a run with the other infrastructure, or that what stands before it is not
//! what its events print.

ghost use Rattle.std.specs.Prelude.{◌≡◌, ◌<◌, ◌≤◌, ◌^◌, true, length, IfErr, IfOk, IfSome};
ghost use Rattle.np_syntax.specs.declared.limits.TheConstants.{LONGEST_SOURCE};
ghost use Rattle.np_histories.specs.declared.limits.TheConstants.{LONGEST_HISTORY};
ghost use Rattle.look_reasons.specs.Noted.{IsRunWith, other};
ghost use Rattle.look_reasons.specs.Unread.{IsUnread};

use super::sources::lowered;
use history_reasons::layout_of;
use np_histories::{LONGEST_HISTORY, check_run, replayed};
use np_syntax::{Event, LONGEST_SOURCE, List, LowProgram, Memory, Text};
use np_verdict::Refusal;
use np_words::{Infrastructure, View};
use refusal_diagnoses::Told;
use source_places::{counted, filled, offset_of_line, put_lines, wrap};
use std::alloc::Global;
use text_writer::TextWriter;

/// The infrastructure that is not this one.
pub(super) fn other(infrastructure: Infrastructure) -> Infrastructure
    ensures { result ≡ other infrastructure }
{
    match infrastructure {
        Infrastructure::Central => Infrastructure::Cache,
        Infrastructure::Cache => Infrastructure::Central,
    }
}

/// Whether events are a run of a source with an infrastructure.
fn is_run_with(
    alloc: Global,
    infrastructure: Infrastructure,
    source: &[u8],
    events: &[Event],
) -> Result<bool, Memory>
    requires source { length source.now ≤ LONGEST_SOURCE }
    requires events { length events.now < 2 ^ 32 }
    ensures { IfOk result (λ yes. yes ≡ true → IsRunWith infrastructure source.now events.now) }
{
    let low = match lowered(alloc, infrastructure, source) {
        Ok(low) => low,
        Err(Refusal::Memory) => return Err(Memory),
        Err(_) => return Ok(false),
    };
    match check_run(alloc, &low, events) {
        Ok(()) => Ok(true),
        Err(Refusal::Memory) => Err(Memory),
        Err(_) => Ok(false),
    }
}

/// What is noted of events that are no run of a source with an infrastructure.
pub(super) fn run_note(
    alloc: Global,
    infrastructure: Infrastructure,
    source: &[u8],
    events: &[Event],
) -> Result<Option<Text>, Memory>
    requires source { length source.now ≤ LONGEST_SOURCE }
    requires events { length events.now < 2 ^ 32 }
    ensures { IfOk result (λ found. IfSome found (λ note. IsRunWith (other infrastructure) source.now events.now)) }
{
    let meant = other(infrastructure);
    if !is_run_with(alloc, meant, source, events)? {
        return Ok(None);
    }
    let words: &[u8] = match meant {
        Infrastructure::Central => b"it is a run of this source with `--infra central`",
        Infrastructure::Cache => b"it is a run of this source with `--infra cache`",
    };
    Ok(Some(List::from_slice(alloc, words)?))
}

/// How many lines end in a text.
fn lines_in(text: &[u8]) -> usize {
    text.iter().filter(|byte| **byte == b'\n').count()
}

/// The number of the first line of a text that is not what a report has before its last line; none where it is just that.
fn first_other(front: &[u8], report: &[u8]) -> Option<usize> {
    for at in 0..front.len() {
        let (before, rest) = front.split_at(at);
        if report.get(at) != rest.first() {
            return Some(lines_in(before).saturating_add(1));
        }
    }
    match report.get(front.len()..) {
        Some(rest) if lines_in(rest) == 1 => None,
        _ => Some(lines_in(front).saturating_add(1)),
    }
}

/// The lines of a text before its history.
fn front_of(bytes: &[u8]) -> &[u8] {
    let front = offset_of_line(bytes, layout_of(bytes).first);
    bytes.get(..front).unwrap_or(&[])
}

/// What is noted of the lines before a history that is a run, where there are some.
pub(super) fn front_note(
    alloc: Global,
    infrastructure: Infrastructure,
    low: &LowProgram,
    bytes: &[u8],
) -> Result<Option<Text>, Memory>
    requires sites { length low.now.sites < 2 ^ 32 }
    requires short { length bytes.now ≤ LONGEST_HISTORY }
{
    let front = front_of(bytes);
    if front.is_empty() {
        return Ok(None);
    }
    let Ok(report) = replayed(alloc, infrastructure, low, View::Said, bytes) else {
        return Err(Memory);
    };
    let Some(line) = first_other(front, report.as_slice()) else {
        return Ok(None);
    };
    let words = b"from line % on, what stands before the history is not what it prints";
    let number = counted(alloc, line as u64)?;
    Ok(Some(filled(alloc, words, number.as_slice())?))
}

/// Adds a note.
fn add_note(alloc: Global, text: &mut Text, note: &[u8]) -> Result<(), Memory> {
    let mut lines = List::new(alloc);
    wrap(alloc, &mut lines, b"note:", note)?;
    let mut written = TextWriter::new(alloc);
    put_lines(&mut written, lines.as_slice());
    text.append(written.finish()?.as_slice())
}

/// What is told, with a note behind it where there is one.
pub(super) fn noted(
    alloc: Global,
    told: Result<Told, Refusal>,
    note: Result<Option<Text>, Memory>,
) -> Result<Told, Refusal>
    requires { IfErr told IsUnread }
    ensures { IfErr result IsUnread }
{
    match (told, note) {
        (Err(refusal), _) => Err(refusal),
        (Ok(_), Err(Memory)) => Err(Refusal::Memory),
        (Ok(told), Ok(None)) => Ok(told),
        (Ok(mut told), Ok(Some(note))) => match add_note(alloc, &mut told.text, note.as_slice()) {
            Ok(()) => Ok(told),
            Err(Memory) => Err(Refusal::Memory),
        },
    }
}
