//! What an example says after one more line.

ghost use Rattle.std.specs.Prelude.{◌≡◌, ◌++◌, [], ◌∷◌, IfErr, OnOk, Some, codes, map, string_bytes};
ghost use Rattle.np_example_files.specs.Examples.{IsKeyFault, fail_said, failing_said, followed, low_said, replay_said, resumed_said, said};
ghost use Rattle.np_example_files.specs.Examples.{text_said};

use super::change::Change;
use super::example::{Example, NamedText, Outcome};
use super::fail::ExampleFail;
use super::key::{Key, change_of};
use super::number::{byte_of, count_of, number_of};
use super::pieces::parted;
use std::alloc::Global;
use std::mem;

/// The head of a program at one site.
const HEAD: &str = "sites home ; main at home = ";

/// Adds to an example what a line with that key says.
pub fn read_key(
    alloc: Global,
    example: &mut Example,
    key: Key,
    rest: &str,
    number: u32,
) -> Result<(), ExampleFail>
    ensures made { OnOk result (followed key rest.now (said example.old) ≡ Some (said example.new)) }
    ensures refused { IfErr result (IsKeyFault (followed key rest.now (said example.old)) number) }
{
    match key {
        Key::Words => add_text(alloc, &mut example.calls, rest),
        Key::Main => add_main(alloc, &mut example.sources, rest),
        Key::Source => add_text(alloc, &mut example.sources, rest),
        Key::Text => add_named(alloc, &mut example.texts, rest),
        Key::Low => read_low(example, rest, number),
        Key::Replays => read_replay(example, rest, number),
        Key::Resumes => read_resumed(example, rest, number),
        Key::Fail => read_fail(example, rest, number),
        Key::Out => add_line(&mut example.outcome.ordered, rest),
        Key::Unordered => add_line(&mut example.outcome.unordered, rest),
        Key::Err => add_line(&mut example.err, rest),
        Key::Or => read_other(alloc, example),
        Key::Piece => read_piece_size(example, rest, number),
        Key::Status => read_status(example, rest, number),
        Key::Events => read_events(example, rest, number),
        Key::Opens => read_opens(example, rest, number),
        Key::First => read_first(example, rest, number),
        Key::Moves => read_moves(example, rest, number),
        Key::Lines => read_lines(example, rest, number),
    }
}

fn add_text(alloc: Global, texts: &mut Vec<String>, text: &str) -> Result<(), ExampleFail>
    ensures made { OnOk result (map (λ s. string_bytes s) texts.new.items ≡ map (λ s. string_bytes s) texts.old.items ++ text.now ∷ []) }
    ensures refused { IfErr result (λ e. e ≡ ExampleFail.Memory) }
{
    texts.push(String::from_str(alloc, text)?)?;
    Ok(())
}

/// A program at one site.
fn add_main(alloc: Global, texts: &mut Vec<String>, text: &str) -> Result<(), ExampleFail>
    ensures made { OnOk result (map (λ s. string_bytes s) texts.new.items
        ≡ map (λ s. string_bytes s) texts.old.items ++ (codes "sites home ; main at home = " ++ text.now) ∷ []) }
    ensures refused { IfErr result (λ e. e ≡ ExampleFail.Memory) }
{
    texts.push(format!(in alloc; "{HEAD}{text}")?)?;
    Ok(())
}

/// A text of that name, which is empty so far.
fn add_named(alloc: Global, texts: &mut Vec<NamedText>, name: &str) -> Result<(), ExampleFail>
    ensures made { OnOk result (map text_said texts.new.items ≡ map text_said texts.old.items ++ (name.now, []) ∷ []) }
    ensures refused { IfErr result (λ e. e ≡ ExampleFail.Memory) }
{
    let name = String::from_str(alloc, name)?;
    let bytes = Vec::new(alloc);
    texts.push(NamedText { name, bytes })?;
    Ok(())
}

fn add_line(text: &mut String, line: &str) -> Result<(), ExampleFail>
    ensures made { OnOk result (string_bytes text.new ≡ string_bytes text.old ++ (line.now ++ 10 ∷ [])) }
    ensures refused { IfErr result (λ e. e ≡ ExampleFail.Memory) }
{
    text.push_str(line)?;
    text.push('\n')?;
    Ok(())
}

/// That the low program is run, and how it is compared; or of which infrastructure it is.
fn read_low(example: &mut Example, rest: &str, number: u32) -> Result<(), ExampleFail>
    ensures made { OnOk result (low_said rest.now (said example.old) ≡ Some (said example.new)) }
    ensures refused { IfErr result (IsKeyFault (low_said rest.now (said example.old)) number) }
{
    if rest == "with caches" {
        example.with_caches = true;
        Ok(())
    } else if rest == "run" {
        example.runs_low = true;
        Ok(())
    } else if rest == "run as high" {
        example.runs_low = true;
        example.as_high = true;
        Ok(())
    } else {
        Err(ExampleFail::Line(number))
    }
}

/// How the history of the low program's run is changed before it is replayed; or that the history that a call writes is.
fn read_replay(example: &mut Example, rest: &str, number: u32) -> Result<(), ExampleFail>
    ensures made { OnOk result (replay_said rest.now (said example.old) ≡ Some (said example.new)) }
    ensures refused { IfErr result (IsKeyFault (replay_said rest.now (said example.old)) number) }
{
    if rest == "itself" {
        example.replays_itself = true;
        return Ok(());
    }
    match change_of(rest) {
        Some(change) => {
            example.replays.push(change)?;
            Ok(())
        }
        None => Err(ExampleFail::Line(number)),
    }
}

/// That a run on sites is cut off by one budget after another, and resumed.
fn read_resumed(example: &mut Example, rest: &str, number: u32) -> Result<(), ExampleFail>
    ensures made { OnOk result (resumed_said rest.now (said example.old) ≡ Some (said example.new)) }
    ensures refused { IfErr result (IsKeyFault (resumed_said rest.now (said example.old)) number) }
{
    if rest == "" {
        example.replays.push(Change::Resumed)?;
        Ok(())
    } else {
        Err(ExampleFail::Line(number))
    }
}

/// Which calls of the texts and sinks fail.
fn read_fail(example: &mut Example, rest: &str, number: u32) -> Result<(), ExampleFail>
    ensures made { OnOk result (fail_said rest.now (said example.old) ≡ Some (said example.new)) }
    ensures refused { IfErr result (IsKeyFault (fail_said rest.now (said example.old)) number) }
{
    let (device, call) = parted(rest, number)?;
    let call = number_of(call, number)?;
    add_failing(example, device, call, number)
}

fn add_failing(
    example: &mut Example,
    device: &str,
    call: u64,
    number: u32,
) -> Result<(), ExampleFail>
    ensures made { OnOk result (failing_said device.now call (said example.old) ≡ Some (said example.new)) }
    ensures refused { IfErr result (IsKeyFault (failing_said device.now call (said example.old)) number) }
{
    if device == "texts" {
        example.devices.texts.push(call)?;
        Ok(())
    } else if device == "out" {
        example.devices.out.push(call)?;
        Ok(())
    } else if device == "err" {
        example.devices.err.push(call)?;
        Ok(())
    } else {
        Err(ExampleFail::Line(number))
    }
}

/// How many bytes a sink takes a call.
fn read_piece_size(example: &mut Example, rest: &str, number: u32) -> Result<(), ExampleFail>
    ensures made { OnOk result (followed Key.Piece rest.now (said example.old) ≡ Some (said example.new)) }
    ensures refused { IfErr result (IsKeyFault (followed Key.Piece rest.now (said example.old)) number) }
{
    let count = count_of(rest, number)?;
    example.devices.piece = count;
    Ok(())
}

fn read_status(example: &mut Example, rest: &str, number: u32) -> Result<(), ExampleFail>
    ensures made { OnOk result (followed Key.Status rest.now (said example.old) ≡ Some (said example.new)) }
    ensures refused { IfErr result (IsKeyFault (followed Key.Status rest.now (said example.old)) number) }
{
    let byte = byte_of(rest, number)?;
    example.status = byte;
    Ok(())
}

fn read_events(example: &mut Example, rest: &str, number: u32) -> Result<(), ExampleFail>
    ensures made { OnOk result (followed Key.Events rest.now (said example.old) ≡ Some (said example.new)) }
    ensures refused { IfErr result (IsKeyFault (followed Key.Events rest.now (said example.old)) number) }
{
    let count = count_of(rest, number)?;
    example.events = Some(count);
    Ok(())
}

fn read_opens(example: &mut Example, rest: &str, number: u32) -> Result<(), ExampleFail>
    ensures made { OnOk result (followed Key.Opens rest.now (said example.old) ≡ Some (said example.new)) }
    ensures refused { IfErr result (IsKeyFault (followed Key.Opens rest.now (said example.old)) number) }
{
    let count = count_of(rest, number)?;
    example.opens = Some(count);
    Ok(())
}

fn read_first(example: &mut Example, rest: &str, number: u32) -> Result<(), ExampleFail>
    ensures made { OnOk result (followed Key.First rest.now (said example.old) ≡ Some (said example.new)) }
    ensures refused { IfErr result (IsKeyFault (followed Key.First rest.now (said example.old)) number) }
{
    let count = count_of(rest, number)?;
    example.first = Some(count);
    Ok(())
}

fn read_moves(example: &mut Example, rest: &str, number: u32) -> Result<(), ExampleFail>
    ensures made { OnOk result (followed Key.Moves rest.now (said example.old) ≡ Some (said example.new)) }
    ensures refused { IfErr result (IsKeyFault (followed Key.Moves rest.now (said example.old)) number) }
{
    let count = count_of(rest, number)?;
    example.moves = Some(count);
    Ok(())
}

fn read_lines(example: &mut Example, rest: &str, number: u32) -> Result<(), ExampleFail>
    ensures made { OnOk result (followed Key.Lines rest.now (said example.old) ≡ Some (said example.new)) }
    ensures refused { IfErr result (IsKeyFault (followed Key.Lines rest.now (said example.old)) number) }
{
    let count = count_of(rest, number)?;
    example.lines = Some(count);
    Ok(())
}

/// That what stands so far is one outcome, and what follows is another.
fn read_other(alloc: Global, example: &mut Example) -> Result<(), ExampleFail>
    ensures made { OnOk result (followed Key.Or [] (said example.old) ≡ Some (said example.new)) }
    ensures refused { IfErr result (λ e. e ≡ ExampleFail.Memory) }
{
    let before = mem::replace(&mut example.outcome, Outcome::new(alloc));
    example.others.push(before)?;
    Ok(())
}
