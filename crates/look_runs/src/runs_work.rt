//! Many runs by seed, and their outputs.

ghost use Rattle.std.specs.Prelude.{◌≡◌, IfOk};
ghost use Rattle.np_syntax.specs.declared.event.End;

use super::run_work::shown_of;
use itoa::Buffer;
use look_sources::{Shown, source_of};
use look_words::{Several, Way};
use np_check::Checked;
use np_io::Texts;
use np_syntax::{End, List, Memory, Text};
use np_verdict::Refusal;
use std::alloc::Global;

/// Who is told how many of the runs were made.
pub trait Progress {
    fn made(&mut self, runs: u32, of: u32);
}

/// An output, how many runs gave it, and the least seed that does.
#[derive(Drop)]
struct Output {
    text: Text,
    /// The lines in their order, or in one order for all where orders do not count.
    key: Text,
    runs: u32,
    seed: u64,
}

/// Makes the runs that are wanted, and what is written of their outputs.
pub fn runs_shown<T: Texts, P: Progress>(
    alloc: Global,
    texts: &mut T,
    progress: &mut P,
    several: &Several,
) -> Result<Shown, Refusal>
    ensures { IfOk result (λ shown. shown.end ≡ End.Rest) }
{
    let checked = source_of(alloc, texts, &several.file)?;
    let text = runs_of(alloc, progress, several, &checked);
    drop(checked);
    match text {
        Ok(text) => Ok(Shown {
            text,
            end: End::Rest,
        }),
        Err(Memory) => Err(Refusal::Memory),
    }
}

/// What is written of the runs of a checked source.
fn runs_of<P: Progress>(
    alloc: Global,
    progress: &mut P,
    several: &Several,
    checked: &Checked,
) -> Result<Text, Memory> {
    let mut outputs = Vec::new(alloc);
    for n in 0..several.runs {
        let way = Way {
            seed: several.way.seed.wrapping_add(u64::from(n)),
            ..several.way
        };
        let shown = shown_of(alloc, way, false, checked)?;
        count(alloc, &mut outputs, several.unordered, way.seed, shown.text)?;
        progress.made(n.saturating_add(1), several.runs);
    }
    told(alloc, several.runs, outputs)
}

/// Counts an output.
fn count(
    alloc: Global,
    outputs: &mut Vec<Output>,
    unordered: bool,
    seed: u64,
    text: Text,
) -> Result<(), Memory> {
    let key = if unordered {
        sorted(alloc, text.as_slice())?
    } else {
        text.copy(alloc)?
    };
    for output in outputs.iter_mut() {
        if output.key.as_slice() == key.as_slice() {
            output.runs = output.runs.saturating_add(1);
            return Ok(());
        }
    }
    outputs.push(Output {
        text,
        key,
        runs: 1,
        seed,
    })?;
    Ok(())
}

/// The lines of a text, each with its line feed.
fn lines_of(alloc: Global, text: &[u8]) -> Result<Vec<Vec<u8>>, Memory> {
    let mut lines = Vec::new(alloc);
    let mut line = Vec::new(alloc);
    for byte in text {
        line.push(*byte)?;
        if *byte == b'\n' {
            lines.push(std::mem::replace(&mut line, Vec::new(alloc)))?;
        }
    }
    lines.push(line)?;
    Ok(lines)
}

/// The lines of a text in the order of their bytes.
fn sorted(alloc: Global, text: &[u8]) -> Result<Text, Memory> {
    let mut lines = lines_of(alloc, text)?;
    lines.sort()?;
    let mut sorted = List::new(alloc);
    for line in lines.iter() {
        sorted.append(line.as_slice())?;
    }
    Ok(sorted)
}

/// What is written of the outputs: the most frequent first, and of as frequent ones the one that came first.
fn told(alloc: Global, runs: u32, outputs: Vec<Output>) -> Result<Text, Memory> {
    let mut outputs = outputs;
    outputs.sort_by_key(|output: &Output| u32::MAX - output.runs)?;
    let mut text = List::new(alloc);
    for output in outputs.iter() {
        put_output(&mut text, output)?;
    }
    put_number(&mut text, u64::from(runs))?;
    text.append(b" runs, ")?;
    put_number(&mut text, outputs.len() as u64)?;
    text.append(b" outputs; a sample, not all\n")?;
    Ok(text)
}

fn put_number(text: &mut Text, number: u64) -> Result<(), Memory> {
    text.append(Buffer::new().format(number).as_bytes())
}

/// An output under how many runs gave it.
fn put_output(text: &mut Text, output: &Output) -> Result<(), Memory> {
    put_number(text, u64::from(output.runs))?;
    text.append(b" runs, first by seed ")?;
    put_number(text, output.seed)?;
    text.append(b":\n")?;
    text.append(output.text.as_slice())
}
