//! Values as a sentence has them, with the names of agents and channels.

use super::cast::Cast;
use np_syntax::{List, Name, Text, Value, print_value};
use run_pictures::Message;
use std::alloc::Global;
use text_writer::TextWriter;

fn put_site(text: &mut TextWriter, sites: &[Text], site: u32) {
    match sites.get(site as usize) {
        Some(name) => text.put(name.as_slice()),
        None => text.put(b"?"),
    }
}

/// Writes a value that has no other values in it.
fn put_plain(alloc: Global, text: &mut TextWriter, value: &Value) {
    let sites = List::new(alloc);
    match print_value(alloc, value, &sites) {
        Ok(printed) => text.put(printed.as_slice()),
        Err(_) => text.fail(),
    }
}

/// Writes a value.
#[cycle(put_value)]
pub(crate) fn put_value(
    alloc: Global,
    text: &mut TextWriter,
    cast: &Cast,
    sites: &[Text],
    value: &Value,
) {
    match value {
        Value::Site(site) => put_site(text, sites, *site),
        Value::Agent(agent) => text.put(cast.name(*agent)),
        Value::Chan(chan) => text.put(cast.channel(*chan)),
        Value::Tuple(parts) => put_tuple(alloc, text, cast, sites, parts.as_slice()),
        Value::Letter(chan, value) => { put_output(alloc, text, cast, sites, *chan, value.get()) }
        Value::Places(_) => text.put(b"places"),
        Value::Int(_) | Value::Truth(_) | Value::Str(_) => put_plain(alloc, text, value),
    }
}

/// Writes the parts of a tuple, in brackets.
#[cycle(put_value)]
fn put_tuple(alloc: Global, text: &mut TextWriter, cast: &Cast, sites: &[Text], parts: &[Value]) {
    text.put(b"[");
    let mut first = true;
    for part in parts {
        if !first {
            text.put(b" ");
        }
        first = false;
        put_value(alloc, text, cast, sites, part);
    }
    text.put(b"]")
}

/// Writes a channel with a value for it.
#[cycle(put_value)]
fn put_output(
    alloc: Global,
    text: &mut TextWriter,
    cast: &Cast,
    sites: &[Text],
    chan: Name,
    value: &Value,
) {
    text.put(cast.channel(chan));
    text.put(b"!");
    put_value(alloc, text, cast, sites, value)
}

/// Writes a message.
pub(crate) fn put_message(
    alloc: Global,
    text: &mut TextWriter,
    cast: &Cast,
    sites: &[Text],
    message: &Message,
) {
    put_output(alloc, text, cast, sites, message.chan, &message.value)
}

/// The agent and the letter that the daemon is handed for it.
fn addressed(value: &Value) -> Option<(Name, &Value)> {
    let Value::Tuple(parts) = value else {
        return None;
    };
    match parts.as_slice() {
        [first, letter] => match first {
            Value::Agent(agent) => Some((*agent, letter)),
            _ => None,
        },
        _ => None,
    }
}

/// Writes a letter that the daemon is handed, and for whom it is.
pub(crate) fn put_letter(
    alloc: Global,
    text: &mut TextWriter,
    cast: &Cast,
    sites: &[Text],
    value: &Value,
) {
    let Some((agent, letter)) = addressed(value) else {
        return put_value(alloc, text, cast, sites, value);
    };
    put_value(alloc, text, cast, sites, letter);
    text.put(b" for ");
    text.put(cast.name(agent))
}
