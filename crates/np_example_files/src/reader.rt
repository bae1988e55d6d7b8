//! From the lines of a file to its examples.

ghost use Rattle.std.specs.Prelude.{◌≡◌, IfErr, IfOk, MatchOption, None, OnOk, Some, map};
ghost use Rattle.std.specs.Str.Lines.{lines};
ghost use Rattle.np_example_files.specs.Examples.{said, text_said};
ghost use Rattle.np_example_files.specs.Pieces.{piece_of};
ghost use Rattle.np_example_files.specs.Reading as spec;
ghost use Rattle.np_example_files.specs.Reading.{AddsToLast, AreRead, FailsAtLine, IsFaultAt, IsFaultOf, IsPieceFault, Reads, Says};

use super::example::{Example, NamedText};
use super::fail::ExampleFail;
use super::form::key_and_rest;
use super::key::key_of;
use super::line::read_key;
use super::pieces::{add_piece, is_piece};
use std::alloc::Global;
use std::rt::Files;

/// The examples of a text, in order. The files that they name stand in a folder, whose path ends with its stroke.
pub fn examples_of<R: Files + Alloc>(
    rt: &R,
    alloc: Global,
    folder: &str,
    text: &str,
) -> Result<Vec<Example>, ExampleFail>
    ensures made { IfOk result (λ examples. AreRead (lines text.now) (map said examples.items)) }
    ensures refused { IfErr result (FailsAtLine text.now) }
{
    let mut examples = Vec::new(alloc);
    let mut number: u32 = 0;
    for line in text.lines() {
        number = number.saturating_add(1);
        read_line(rt, alloc, folder, &mut examples, line, number)?;
    }
    Ok(examples)
}

/// The title of the example that begins at a line.
fn title_of(line: &str) -> Option<&str>
    ensures { MatchOption result (spec.title_of line.now ≡ None) (λ title. spec.title_of line.now ≡ Some title.now) }
{
    line.strip_prefix("example ")
}

/// Whether a line is empty, or says something to the reader.
fn is_silent(line: &str) -> bool
    ensures { result ≡ spec.is_silent line.now }
{
    line.is_empty() || line.starts_with('#')
}

/// Reads a line of a file.
fn read_line<R: Files + Alloc>(
    rt: &R,
    alloc: Global,
    folder: &str,
    examples: &mut Vec<Example>,
    line: &str,
    number: u32,
) -> Result<(), ExampleFail>
    ensures made { OnOk result (Reads number line.now (map said examples.old.items) (map said examples.new.items)) }
    ensures refused { IfErr result (IsFaultAt number line.now (map said examples.old.items)) }
{
    if let Some(title) = title_of(line) {
        examples.push(Example::new(alloc, title, number)?)?;
        return Ok(());
    }
    if is_silent(line) {
        return Ok(());
    }
    match examples.last_mut() {
        Some(example) => add_line(rt, alloc, folder, example, line, number),
        None => Err(ExampleFail::Line(number)),
    }
}

/// Adds to an example what a line says.
fn add_line<R: Files + Alloc>(
    rt: &R,
    alloc: Global,
    folder: &str,
    example: &mut Example,
    line: &str,
    number: u32,
) -> Result<(), ExampleFail>
    ensures made { OnOk result (Says line.now (said example.old) (said example.new)) }
    ensures refused { IfErr result (IsFaultOf number line.now (said example.old)) }
{
    if is_piece(line) {
        return add_to_last(rt, alloc, folder, &mut example.texts, line, number);
    }
    let (word, rest) = key_and_rest(line);
    match key_of(word) {
        Some(key) => read_key(alloc, example, key, rest, number),
        None => Err(ExampleFail::Line(number)),
    }
}

/// Adds a piece to the last text.
fn add_to_last<R: Files + Alloc>(
    rt: &R,
    alloc: Global,
    folder: &str,
    texts: &mut Vec<NamedText>,
    line: &str,
    number: u32,
) -> Result<(), ExampleFail>
    ensures made { OnOk result (AddsToLast (piece_of line.now) (map text_said texts.old.items) (map text_said texts.new.items)) }
    ensures refused { IfErr result (IsPieceFault number (piece_of line.now) (map text_said texts.old.items)) }
{
    match texts.last_mut() {
        Some(text) => add_piece(rt, alloc, folder, &mut text.bytes, line, number),
        None => Err(ExampleFail::Line(number)),
    }
}
