//! The texts of binders, names and values.

ghost use Rattle.std.specs.Prelude.{map};
ghost use Rattle.np_syntax.specs.Printed.{spaced, value_text};
ghost use Rattle.text_writer.specs.Writes.{Writes};
ghost use Rattle.np_low_text.specs.LowText as spec;

use itoa::Buffer;
use np_syntax::{List, Name, Text, Value, print_value};
use std::alloc::Global;
use text_writer::TextWriter;

/// The text of a binder.
pub fn put_binder(text: &mut TextWriter, binder: u32)
    ensures { Writes text.old text.new (spec.binder_text binder) }
{
    text.put(b"x");
    text.put(Buffer::new().format(binder).as_bytes())
}

/// The word of an own name, by its number.
fn put_word(text: &mut TextWriter, number: u32)
    ensures { Writes text.old text.new (spec.word number) }
{
    match number {
        0 => text.put(b"main"),
        1 => text.put(b"daemon"),
        2 => text.put(b"register"),
        3 => text.put(b"migrating"),
        4 => text.put(b"migrated"),
        5 => text.put(b"message"),
        6 => text.put(b"deliver"),
        7 => text.put(b"ack"),
        8 => text.put(b"dack"),
        9 => text.put(b"currentloc"),
        10 => text.put(b"lock"),
        13 => text.put(b"here"),
        14 => text.put(b"cache"),
        15 => text.put(b"where"),
        16 => text.put(b"found"),
        _ => {}
    }
}

/// The word of an own name of a program of so many sites. Any other name has no text.
fn put_own(text: &mut TextWriter, sites: usize, name: Name)
    ensures { Writes text.old text.new (spec.own_word sites name) }
{
    if name.site as usize == sites {
        put_word(text, name.n);
    }
}

fn put_place(text: &mut TextWriter, sites: usize, place: (Name, Name))
    ensures { Writes text.old text.new (spec.place_text sites place) }
{
    put_own(text, sites, place.0);
    text.put(b" ");
    put_own(text, sites, place.1)
}

/// The places with single spaces between them.
fn put_pairs(text: &mut TextWriter, sites: usize, places: &[(Name, Name)])
    ensures { Writes text.old text.new (spaced (map (spec.place_text sites) places.now)) }
{
    let Some((first, others)) = places.split_first() else {
        return;
    };
    put_place(text, sites, *first);
    for other in others {
        text.put(b" ");
        put_place(text, sites, *other);
    }
}

fn put_places(text: &mut TextWriter, sites: usize, places: &[(Name, Name)])
    ensures { Writes text.old text.new (spec.places_text sites places.now) }
{
    text.put(b"{");
    put_pairs(text, sites, places);
    text.put(b"}")
}

fn put_printed(alloc: Global, text: &mut TextWriter, sites: &List<Text>, value: &Value)
    ensures { Writes text.old text.new (value_text sites.now value.now) }
{
    match print_value(alloc, value, sites) {
        Ok(printed) => text.put(printed.as_slice()),
        Err(_) => text.fail(),
    }
}

/// The text of a value.
pub fn put_value(alloc: Global, text: &mut TextWriter, sites: &List<Text>, value: &Value)
    ensures { Writes text.old text.new (spec.constant_text sites.now value.now) }
{
    match value {
        Value::Agent(name) => put_own(text, sites.len(), *name),
        Value::Chan(name) => put_own(text, sites.len(), *name),
        Value::Places(places) => put_places(text, sites.len(), places.as_slice()),
        Value::Int(_)
        | Value::Truth(_)
        | Value::Str(_)
        | Value::Site(_)
        | Value::Tuple(_)
        | Value::Letter(_, _) => put_printed(alloc, text, sites, value),
    }
}
