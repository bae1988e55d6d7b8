//! High texts that are followed from the start of their source.

ghost use Rattle.std.specs.Prelude.{◌≡◌, ◌<◌, ◌≤◌, ◌^◌, length, Some, IfErr, IfOk};
ghost use Rattle.np_calculus.specs.Reductions.{run};
ghost use Rattle.np_calculus.specs.Starts.{start_high};
ghost use Rattle.look_runs.specs.Follows.{Follows, Stops};
ghost use Rattle.look_sources.specs.declared.reading.TheConstants.{LONGEST_HISTORY};
ghost use Rattle.np_syntax.specs.declared.limits.TheConstants.{LONGEST_SOURCE};

use history_reasons::layout_of;
use history_text::{HistFail, read_history};
use look_sources::{LONGEST_HISTORY, read_text};
use look_words::Following;
use np_check::Checked;
use np_configuration::{Cfg, start_high};
use np_io::{Texts, Word};
use np_safety::law_runs_well;
use np_serial::{ReplayFail, follow};
use np_syntax::{Event, LONGEST_SOURCE, List, Memory, Text};
use np_verdict::{DONE, Refusal, checked_source, replay_report};
use refusal_diagnoses::{Told, judged, told_of};
use source_places::{Range, line_at, marked, offset_of_line, without_marks};
use std::alloc::Global;

/// What a line of a high text has to be.
const WANTED: &[u8] = b"an event that the source can make there";

/// How to go on.
const NEXT: &[u8] =
    b"compare the line with those before it, and the source with the one that was run";

/// Follows a high text, and tells what it prints or where it stops.
pub fn followed_shown<T: Texts>(
    alloc: Global,
    texts: &mut T,
    following: &Following,
) -> Result<Told, Refusal> {
    let file = following.file.text().as_bytes();
    let bytes = read_text(
        alloc,
        texts,
        &following.file,
        LONGEST_SOURCE,
        Refusal::TooLong,
    )?;
    let checked = match checked_source(alloc, bytes.as_slice()) {
        Ok(checked) => checked,
        Err(_) => return of_memory(judged(alloc, file, bytes.as_slice())),
    };
    let name = &following.high;
    let answer = match history_of(alloc, texts, name) {
        Ok(history) => answered(alloc, &checked, name.text().as_bytes(), history.as_slice()),
        Err(refusal) => Err(refusal),
    };
    drop(checked);
    answer
}

/// The high text of a name as a history.
fn history_of<T: Texts>(alloc: Global, texts: &mut T, name: &Word) -> Result<List<u8>, Refusal>
    ensures { IfOk result (λ history. length history ≤ LONGEST_HISTORY) }
{
    let lines = read_text(alloc, texts, name, LONGEST_HISTORY, Refusal::HistoryTooLong)?;
    let Ok(history) = as_history(alloc, lines.as_slice()) else {
        return Err(Refusal::Memory);
    };
    if LONGEST_HISTORY < history.len() {
        return Err(Refusal::HistoryTooLong);
    }
    Ok(history)
}

/// What the events of a history print, or where they stop being a run of a source.
fn answered(alloc: Global, checked: &Checked, name: &[u8], history: &[u8]) -> Result<Told, Refusal>
    requires { length history.now ≤ LONGEST_HISTORY }
{
    match followed_of(alloc, checked, history) {
        Ok(text) => Ok(Told { text, status: DONE }),
        Err(refusal) => told(alloc, name, history, refusal),
    }
}

/// What is told of a refusal, which names a place in these bytes.
fn told(alloc: Global, name: &[u8], bytes: &[u8], refusal: Refusal) -> Result<Told, Refusal>
    requires { length bytes.now ≤ LONGEST_HISTORY }
{
    if let Refusal::Memory = refusal {
        return Err(Refusal::Memory);
    }
    of_memory(told_by(alloc, name, bytes, refusal))
}

/// The same, where it is not for want of memory.
fn told_by(alloc: Global, name: &[u8], bytes: &[u8], refusal: Refusal) -> Result<Told, Memory>
    requires { length bytes.now ≤ LONGEST_HISTORY }
{
    let mut reasons = without_marks(alloc, WANTED, NEXT)?;
    if let Refusal::NotARun(index) = refusal {
        let start = offset_of_line(bytes, layout_of(bytes).line_of(index as usize));
        let to = start.saturating_add(line_at(bytes, start).len());
        let label = List::from_slice(alloc, b"is not enabled here")?;
        reasons.refused = Some(marked(Range { from: start, to }, start, label));
    }
    told_of(alloc, name, bytes, refusal, &reasons)
}

/// What is told, or that memory ran out.
fn of_memory(told: Result<Told, Memory>) -> Result<Told, Refusal> {
    match told {
        Ok(told) => Ok(told),
        Err(Memory) => Err(Refusal::Memory),
    }
}

/// What the events of a history print, or why they are no run of a source.
fn followed_of(alloc: Global, checked: &Checked, history: &[u8]) -> Result<Text, Refusal>
    requires { length history.now ≤ LONGEST_HISTORY }
{
    match read_history(alloc, history) {
        Ok(events) => followed(alloc, checked, events.as_slice()),
        Err(HistFail::Memory) => Err(Refusal::Memory),
        Err(HistFail::HistSyntax(line)) => Err(Refusal::HistSyntax(line)),
    }
}

/// The report of events that are a run of a source, or the first that is not enabled.
pub fn followed(alloc: Global, checked: &Checked, events: &[Event]) -> Result<Text, Refusal>
    requires { length events.now < 2 ^ 32 }
    ensures follows { IfOk result (Follows checked.now events.now) }
    ensures stops { IfErr result (Stops checked.now events.now) }
{
    law_runs_well();
    match start_high(alloc, checked.program()) {
        Ok(start) => followed_from(alloc, checked, start, events),
        Err(Memory) => Err(Refusal::Memory),
    }
}

/// The same, from the start of the source.
fn followed_from(
    alloc: Global,
    checked: &Checked,
    start: Cfg,
    events: &[Event],
) -> Result<Text, Refusal>
    requires length { length events.now < 2 ^ 32 }
    requires start { start ≡ start_high checked.now }
    ensures follows { IfOk result (Follows checked.now events.now) }
    ensures stops { IfErr result (Stops checked.now events.now) }
{
    match follow(alloc, start, events) {
        Ok(last) => {
            let text = reported(alloc, checked, &last, events);
            drop(last);
            text
        }
        Err(ReplayFail::Memory) => Err(Refusal::Memory),
        Err(ReplayFail::NotARun(index)) => Err(Refusal::NotARun(index)),
    }
}

/// The report of events that lead from the start of a source to this configuration.
fn reported(alloc: Global, checked: &Checked, last: &Cfg, events: &[Event]) -> Result<Text, Refusal>
    requires { run (start_high checked.now) events.now ≡ Some last.now }
    ensures follows { IfOk result (Follows checked.now events.now) }
    ensures stops { IfErr result (Stops checked.now events.now) }
{
    let sites = &checked.program().sites;
    match replay_report(alloc, sites, last.said(), events.len()) {
        Ok(text) => Ok(text),
        Err(Memory) => Err(Refusal::Memory),
    }
}

/// A high text as a history: its first line says so, and the lines before it are empty.
fn as_history(alloc: Global, text: &[u8]) -> Result<Text, Memory> {
    let mut history = List::new(alloc);
    let mut begun = false;
    let mut line = List::new(alloc);
    for byte in text {
        if begun {
            history.add(*byte)?;
        } else if *byte != b'\n' {
            line.add(*byte)?;
        } else {
            begun = line.as_slice() == b"high 1".as_slice();
            if begun {
                history.append(b"history 1")?;
            }
            history.add(b'\n')?;
            line = List::new(alloc);
        }
    }
    Ok(history)
}
