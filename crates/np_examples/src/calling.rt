//! Calls of np over texts and sinks in memory.

use super::case::Case;
use super::high_run::{Reading, reading_of};
use super::trial::Trial;
use np_example_files::{Devices, ExampleFail};
use np_io::{MemSink, MemTexts, Word};
use np_run::{Record, Told, np};
use np_syntax::{List, Memory};
use std::alloc::Global;
use std::sync::Wait;
use std::thread::Threads;

/// How many bytes may be written to a sink.
const ROOM: usize = 2_097_152;

/// The words of a call: `""` is the empty one.
fn words_of(alloc: Global, line: &str) -> Result<List<Word>, ExampleFail> {
    let mut words = List::new(alloc);
    for word in line.split_whitespace() {
        let word = if word == "\"\"" { "" } else { word };
        words.add(Word::new(alloc, word)?)?;
    }
    Ok(words)
}

/// Puts a text under a name.
fn hold(alloc: Global, texts: &mut MemTexts, name: &str, bytes: &[u8]) -> Result<(), Memory> {
    let name = Word::new(alloc, name)?;
    let bytes = List::from_slice(alloc, bytes)?;
    texts.add(name, bytes)
}

/// The texts of an example and of a call.
fn hold_all(
    alloc: Global,
    texts: &mut MemTexts,
    case: &Case<'_>,
    trial: &Trial,
) -> Result<(), Memory> {
    for text in case.example.texts.iter() {
        hold(alloc, texts, text.name.as_str(), text.bytes.as_slice())?;
    }
    if let Some(source) = case.source {
        hold(alloc, texts, "a", source.as_bytes())?;
    }
    if let Some(history) = &trial.history {
        hold(alloc, texts, "h", history.as_slice())?;
    }
    for failing in case.example.devices.texts.iter() {
        texts.fail(*failing)?;
    }
    Ok(())
}

/// The texts of a call.
fn texts_of(alloc: Global, case: &Case<'_>, trial: &Trial) -> Result<MemTexts, Memory> {
    let mut texts = MemTexts::new(alloc);
    hold_all(alloc, &mut texts, case, trial)?;
    Ok(texts)
}

/// A sink that takes so many bytes a call, at least one, and fails at these calls.
fn sink_of(alloc: Global, piece: usize, failing: &[u64]) -> Result<MemSink, Memory> {
    let mut sink = MemSink::new(alloc, piece.max(1));
    sink.reserve(ROOM)?;
    for call in failing {
        sink.fail(*call)?;
    }
    Ok(sink)
}

/// Standard output and standard error of a call.
#[derive(Drop)]
pub(crate) struct Sinks {
    pub out: MemSink,
    pub err: MemSink,
}

impl Sinks {
    pub(crate) fn new(alloc: Global, devices: &Devices) -> Result<Sinks, Memory> {
        let out = sink_of(alloc, devices.piece, devices.out.as_slice())?;
        let err = sink_of(alloc, devices.piece, devices.err.as_slice())?;
        Ok(Sinks { out, err })
    }
}

/// What is seen of a run on the sites of this source, if there is both.
fn reading_in(
    alloc: Global,
    source: Option<&[u8]>,
    kept: &Option<Record>,
) -> Result<Option<Reading>, Memory> {
    match (source, kept) {
        (Some(source), Some(record)) => Ok(Some(reading_of(alloc, source, record)?)),
        _ => Ok(None),
    }
}

/// What np tells of its answer, and what is seen of the run that it keeps.
fn seen_of<R: Threads + Wait + Sync>(
    rt: &R,
    alloc: Global,
    words: &[Word],
    texts: &mut MemTexts,
    sinks: &mut Sinks,
    source: Option<&[u8]>,
) -> Result<(Told, Option<Reading>), ExampleFail> {
    let answer = np(rt, alloc, words, texts, &mut sinks.out, &mut sinks.err);
    let reading = reading_in(alloc, source, &answer.kept);
    let told = answer.told();
    Ok((told, reading?))
}

/// Makes a call that writes to these sinks.
pub(crate) fn seen_into<R: Threads + Wait + Sync>(
    rt: &R,
    alloc: Global,
    case: &Case<'_>,
    trial: &Trial,
    sinks: &mut Sinks,
) -> Result<(Told, Option<Reading>), ExampleFail> {
    let words = words_of(alloc, trial.words.as_str())?;
    let mut texts = texts_of(alloc, case, trial)?;
    let source = case.source_bytes();
    seen_of(rt, alloc, words.as_slice(), &mut texts, sinks, source)
}
