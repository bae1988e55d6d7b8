ghost use Rattle.std.specs.Prelude.{◌≡◌, ◌++◌, [], IfOk, OnOk, map, slice_index_or};
ghost use Rattle.np_syntax.specs.Printed.{escaped, quoted, spaced, value_text, tuple_text};

use super::list::{List, Text};
use super::memory::Memory;
use super::value::Value;
use itoa::Buffer;
use std::alloc::Global;

/// The text of a printed value, in a program whose sites have these names: a number in decimal, `true`
/// or `false`, a string in double quotes with its escapes, a site's name, a tuple in square brackets.
/// What is never printed (an agent, a channel, a letter, a map of places) has the empty text.
pub fn print_value(alloc: Global, value: &Value, sites: &List<Text>) -> Result<Text, Memory>
    ensures { IfOk result (λ text. text ≡ value_text sites.now value.now) }
{
    let mut text = List::new(alloc);
    append_value(value, sites.as_slice(), &mut text)?;
    Ok(text)
}

#[tactic(auto, using(crate::proofs::Texts::texts))]
#[cycle(append_value)]
fn append_value(value: &Value, sites: &[Text], text: &mut Text) -> Result<(), Memory>
    ensures { OnOk result (text.new ≡ text.old ++ value_text sites.now value.now) }
{
    match value {
        Value::Int(number) => text.append(Buffer::new().format(*number).as_bytes()),
        Value::Truth(true) => text.append(b"true"),
        Value::Truth(false) => text.append(b"false"),
        Value::Str(content) => append_quoted(text, content.as_slice()),
        Value::Site(site) => append_site(*site, sites, text),
        Value::Tuple(parts) => append_tuple(parts.as_slice(), sites, text),
        Value::Agent(_) => Ok(()),
        Value::Chan(_) => Ok(()),
        Value::Letter(_, _) => Ok(()),
        Value::Places(_) => Ok(()),
    }
}

#[cycle(append_value)]
fn append_tuple(parts: &[Value], sites: &[Text], text: &mut Text) -> Result<(), Memory>
    ensures { OnOk result (text.new ≡ text.old ++ tuple_text sites.now parts.now) }
{
    text.append(b"[")?;
    append_parts(parts, sites, text)?;
    text.append(b"]")
}

/// The parts with single spaces between them.
#[cycle(append_value)]
fn append_parts(parts: &[Value], sites: &[Text], text: &mut Text) -> Result<(), Memory>
    ensures { OnOk result (text.new ≡ text.old ++ spaced (map (value_text sites.now) parts.now)) }
{
    let Some((first, others)) = parts.split_first() else {
        return Ok(());
    };
    append_value(first, sites, text)?;
    for part in others {
        text.append(b" ")?;
        append_value(part, sites, text)?;
    }
    Ok(())
}

fn append_site(site: u32, sites: &[Text], text: &mut Text) -> Result<(), Memory>
    ensures { OnOk result (text.new ≡ text.old ++ slice_index_or sites.now site []) }
{
    match sites.get(site as usize) {
        Some(name) => text.append(name.as_slice()),
        None => Ok(()),
    }
}

fn append_quoted(text: &mut Text, content: &[u8]) -> Result<(), Memory>
    ensures { OnOk result (text.new ≡ text.old ++ quoted content.now) }
{
    text.append(b"\"")?;
    for byte in content {
        append_escaped(text, *byte)?;
    }
    text.append(b"\"")
}

fn append_escaped(text: &mut Text, byte: u8) -> Result<(), Memory>
    ensures { OnOk result (text.new ≡ text.old ++ escaped byte) }
{
    match byte {
        b'\n' => text.append(b"\\n"),
        b'"' => text.append(b"\\\""),
        b'\\' => text.append(b"\\\\"),
        other => text.add(other),
    }
}
