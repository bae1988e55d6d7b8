//! The pieces that make up a text: lines, quoted texts, repetitions, trees, bytes by their numbers, files and lines of files.

ghost use Rattle.std.specs.Prelude.{◌≡◌, ◌++◌, IfErr, IfOk, MatchOption, MatchResult, None, OnOk, Some, nat_eq, string_bytes, ℕ, ◌≢◌, []};
ghost use Rattle.std.specs.Prelude.{◌∷◌};
ghost use Rattle.std.specs.List.{starts_with};
ghost use Rattle.np_example_files.specs.Pieces as spec;
ghost use Rattle.np_example_files.specs.Pieces.{Adds, IsFault, IsLonger, File, Numbered, lines_between, part_or_refused, piece_of, quoted};
ghost use Rattle.np_example_files.specs.Pieces.{these_or_refused, times};

use super::fail::ExampleFail;
use super::form::{Form, form_of, key_and_rest};
use super::number::{byte_of, count_of};
use std::alloc::{AllocError, Global};
use std::fs;
use std::rt::Files;

fn behind_quote(text: &str) -> Option<&str>
    ensures { MatchOption result (spec.behind_quote text.now ≡ None) (λ rest. spec.behind_quote text.now ≡ Some rest.now) }
{
    text.strip_prefix('"')
}

fn before_quote(text: &str) -> Option<&str>
    ensures { MatchOption result (spec.before_quote text.now ≡ None) (λ inner. spec.before_quote text.now ≡ Some inner.now) }
{
    text.strip_suffix('"')
}

/// What stands between the first double quote of a text and the last, if the text begins and ends with one.
fn quoted(text: &str, line: u32) -> Result<&str, ExampleFail>
    ensures { MatchResult result (λ inner. quoted text.now ≡ Some inner.now)
        (λ e. (quoted text.now ≡ None) × (e ≡ ExampleFail.Line line)) }
{
    match behind_quote(text) {
        Some(rest) => before_quote(rest).ok_or(ExampleFail::Line(line)),
        None => Err(ExampleFail::Line(line)),
    }
}

/// What stands in front of the first blank of a text and behind it, if there is one.
pub fn parted(text: &str, line: u32) -> Result<(&str, &str), ExampleFail>
    ensures { MatchResult result (λ parts. spec.parted text.now ≡ Some (parts.0.now, parts.1.now))
        (λ e. (spec.parted text.now ≡ None) × (e ≡ ExampleFail.Line line)) }
{
    text.split_once(' ').ok_or(ExampleFail::Line(line))
}

fn begins(line: &str, word: &str) -> bool
    ensures { result ≡ starts_with nat_eq line.now word.now }
{
    line.starts_with(word)
}

/// Whether the line is a piece of a text.
pub fn is_piece(line: &str) -> bool
    ensures { result ≡ spec.is_piece line.now }
{
    let first = line.as_bytes().first().copied().unwrap_or(0);
    first == b'|'
        || first == b'"'
        || first.is_ascii_digit()
        || begins(line, "tree ")
        || begins(line, "bytes ")
        || begins(line, "file ")
        || begins(line, "part ")
}

/// Adds the piece of a line to the bytes of a text. A file is one of the folder.
pub fn add_piece<R: Files + Alloc>(
    rt: &R,
    alloc: Global,
    folder: &str,
    bytes: &mut Vec<u8>,
    line: &str,
    number: u32,
) -> Result<(), ExampleFail>
    ensures made { OnOk result (Adds (piece_of line.now) bytes.old.items bytes.new.items) }
    ensures refused { IfErr result (IsFault (piece_of line.now) number) }
    ensures kept { IsLonger bytes.old.items bytes.new.items }
{
    let (key, rest) = key_and_rest(line);
    match form_of(key, line) {
        Form::Line => add_line(bytes, rest),
        Form::Tree => add_tree(alloc, bytes, rest, number),
        Form::Numbered => add_numbered(bytes, rest, number),
        Form::File => add_named(rt, alloc, folder, bytes, rest),
        Form::Part => add_part(rt, alloc, folder, bytes, rest, number),
        Form::Quoted => add_quoted(bytes, line, number),
        Form::Times => add_repeated(bytes, key, rest, number),
    }
}

/// What is quoted.
fn add_quoted(bytes: &mut Vec<u8>, line: &str, number: u32) -> Result<(), ExampleFail>
    ensures made { OnOk result (Adds (these_or_refused (spec.quoted line.now)) bytes.old.items bytes.new.items) }
    ensures refused { IfErr result (IsFault (these_or_refused (spec.quoted line.now)) number) }
    ensures kept { IsLonger bytes.old.items bytes.new.items }
{
    let text = quoted(line, number)?;
    add_text(bytes, text)
}

/// What is quoted, so many times.
fn add_repeated(bytes: &mut Vec<u8>, key: &str, rest: &str, number: u32) -> Result<(), ExampleFail>
    ensures made { OnOk result (Adds (these_or_refused (spec.times_of key.now rest.now)) bytes.old.items bytes.new.items) }
    ensures refused { IfErr result (IsFault (these_or_refused (spec.times_of key.now rest.now)) number) }
    ensures kept { IsLonger bytes.old.items bytes.new.items }
{
    let text = quoted(rest, number)?;
    let count = count_of(key, number)?;
    add_times(bytes, text, count)
}

fn add_text(bytes: &mut Vec<u8>, text: &str) -> Result<(), ExampleFail>
    ensures made { OnOk result (bytes.new.items ≡ bytes.old.items ++ text.now) }
    ensures refused { IfErr result (λ e. e ≡ ExampleFail.Memory) }
    ensures kept { IsLonger bytes.old.items bytes.new.items }
{
    bytes.extend_from_slice(text.as_bytes())?;
    Ok(())
}

/// The text and a line feed.
fn add_line(bytes: &mut Vec<u8>, text: &str) -> Result<(), ExampleFail>
    ensures made { OnOk result (bytes.new.items ≡ bytes.old.items ++ (text.now ++ 10 ∷ [])) }
    ensures refused { IfErr result (λ e. e ≡ ExampleFail.Memory) }
    ensures kept { IsLonger bytes.old.items bytes.new.items }
{
    bytes.extend_from_slice(text.as_bytes())?;
    bytes.push(b'\n')?;
    Ok(())
}

/// The text so many times.
fn add_times(bytes: &mut Vec<u8>, text: &str, count: usize) -> Result<(), ExampleFail>
    ensures made { OnOk result (bytes.new.items ≡ bytes.old.items ++ times text.now count) }
    ensures refused { IfErr result (λ e. e ≡ ExampleFail.Memory) }
    ensures kept { IsLonger bytes.old.items bytes.new.items }
{
    for _turn in 0..count {
        add_text(bytes, text)?;
    }
    Ok(())
}

/// The full binary tree of compositions of that depth, with the text at each leaf.
fn tree_of(alloc: Global, leaf: &str, depth: usize) -> Result<String, AllocError>
    ensures { IfOk result (λ tree. string_bytes tree ≡ spec.tree leaf.now depth) }
{
    let mut tree = String::from_str(alloc, leaf)?;
    for _level in 0..depth {
        tree = format!(in alloc; "({tree}|{tree})")?;
    }
    Ok(tree)
}

fn add_tree(alloc: Global, bytes: &mut Vec<u8>, rest: &str, number: u32) -> Result<(), ExampleFail>
    ensures made { OnOk result (Adds (these_or_refused (spec.tree_of rest.now)) bytes.old.items bytes.new.items) }
    ensures refused { IfErr result (IsFault (these_or_refused (spec.tree_of rest.now)) number) }
    ensures kept { IsLonger bytes.old.items bytes.new.items }
{
    let (depth, leaf) = parted(rest, number)?;
    let leaf = quoted(leaf, number)?;
    let depth = count_of(depth, number)?;
    let tree = tree_of(alloc, leaf, depth)?;
    add_text(bytes, tree.as_str())
}

fn add_numbered(bytes: &mut Vec<u8>, rest: &str, number: u32) -> Result<(), ExampleFail>
    ensures made { OnOk result (Adds (Numbered rest.now) bytes.old.items bytes.new.items) }
    ensures refused { IfErr result (IsFault (Numbered rest.now) number) }
    ensures kept { IsLonger bytes.old.items bytes.new.items }
{
    for word in rest.split_whitespace() {
        let byte = byte_of(word, number)?;
        bytes.push(byte)?;
    }
    Ok(())
}

/// A file of the folder.
fn add_named<R: Files + Alloc>(
    rt: &R,
    alloc: Global,
    folder: &str,
    bytes: &mut Vec<u8>,
    name: &str,
) -> Result<(), ExampleFail>
    ensures made { OnOk result (Adds (File name.now) bytes.old.items bytes.new.items) }
    ensures refused { IfErr result (λ e. (line : ℕ) → e ≢ ExampleFail.Line line) }
    ensures kept { IsLonger bytes.old.items bytes.new.items }
{
    let path = format!(in alloc; "{folder}{name}")?;
    add_file(rt, bytes, path.as_str())
}

fn add_file<R: Files + Alloc>(rt: &R, bytes: &mut Vec<u8>, path: &str) -> Result<(), ExampleFail>
    ensures refused { IfErr result (λ e. (line : ℕ) → e ≢ ExampleFail.Line line) }
    ensures kept { IsLonger bytes.old.items bytes.new.items }
{
    let held = fs::read(rt, path)?;
    bytes.extend_from_slice(held.as_slice())?;
    Ok(())
}

/// Which lines of which file: the first and the last, counted from 1, and the name.
fn part_of(rest: &str, number: u32) -> Result<(usize, usize, &str), ExampleFail>
    ensures { MatchResult result (λ part. spec.part_of rest.now ≡ Some (part.0, part.1, part.2.now))
        (λ e. (spec.part_of rest.now ≡ None) × (e ≡ ExampleFail.Line number)) }
{
    let (first, others) = parted(rest, number)?;
    let (last, name) = parted(others, number)?;
    let first = count_of(first, number)?;
    let last = count_of(last, number)?;
    Ok((first, last, name))
}

fn add_part<R: Files + Alloc>(
    rt: &R,
    alloc: Global,
    folder: &str,
    bytes: &mut Vec<u8>,
    rest: &str,
    number: u32,
) -> Result<(), ExampleFail>
    ensures made { OnOk result (Adds (part_or_refused (spec.part_of rest.now)) bytes.old.items bytes.new.items) }
    ensures refused { IfErr result (IsFault (part_or_refused (spec.part_of rest.now)) number) }
    ensures kept { IsLonger bytes.old.items bytes.new.items }
{
    let (first, last, name) = part_of(rest, number)?;
    let path = format!(in alloc; "{folder}{name}")?;
    let held = fs::read_to_string(rt, path.as_str())?;
    add_lines(bytes, held.as_str(), first, last)
}

/// The lines of a text from the first to the last, counted from 1.
fn add_lines(bytes: &mut Vec<u8>, text: &str, first: usize, last: usize) -> Result<(), ExampleFail>
    ensures made { OnOk result (bytes.new.items ≡ bytes.old.items ++ lines_between first last text.now) }
    ensures refused { IfErr result (λ e. e ≡ ExampleFail.Memory) }
    ensures kept { IsLonger bytes.old.items bytes.new.items }
{
    for line in text.lines().take(last).skip(first.saturating_sub(1)) {
        add_line(bytes, line)?;
    }
    Ok(())
}
