//! Writing.

ghost use Rattle.std.specs.Prelude.{◌≡◌, ◌++◌, IfOk, decimal, codes, map};
ghost use Rattle.text_writer.specs.Writes.{Writes};
ghost use Rattle.history_text.specs.declared.format.Format.TheVariants.{First, Second};
ghost use Rattle.history_text.specs.Spelling as spec;
ghost use Rattle.history_text.specs.Reading.{ninth};

use super::format::Format;
use super::words::{first_line, high_word, kind_word, role_word};
use itoa::Buffer;
use np_syntax::{Event, Kind, Made, Memory, Name, Role, Tag, Text};
use std::alloc::Global;
use text_writer::TextWriter;

fn put_number(text: &mut TextWriter, number: u32)
    ensures { Writes text.old text.new (decimal number) }
{
    text.put(Buffer::new().format(number).as_bytes())
}

/// `site.n`
fn put_name(text: &mut TextWriter, name: Name)
    ensures { Writes text.old text.new (spec.name_text name) }
{
    put_number(text, name.site);
    text.put(b".");
    put_number(text, name.n)
}

/// A name, or `-` for none.
fn put_optional(text: &mut TextWriter, name: Option<Name>)
    ensures { Writes text.old text.new (spec.optional_text name) }
{
    match name {
        Some(name) => put_name(text, name),
        None => text.put(b"-"),
    }
}

/// The names that an event makes, or `-` for each that it does not make.
fn put_made(text: &mut TextWriter, made: Made)
    ensures { Writes text.old text.new (spec.optional_text (spec.first_made made) ++ codes " "
        ++ spec.optional_text (spec.second_made made)) }
{
    let (first, second) = match made {
        Made::Nothing => (None, None),
        Made::One(name) => (Some(name), None),
        Made::Two(name, other) => (Some(name), Some(other)),
    };
    put_optional(text, first);
    text.put(b" ");
    put_optional(text, second)
}

fn put_tag(text: &mut TextWriter, tag: Tag)
    ensures { Writes text.old text.new (decimal tag.node ++ codes " " ++ spec.role_word tag.role) }
{
    put_number(text, tag.node);
    text.put(b" ");
    text.put(role_word(tag.role))
}

/// The first three fields.
fn put_actor(text: &mut TextWriter, event: &Event)
    ensures { Writes text.old text.new (decimal event.now.site ++ codes " " ++ spec.kind_word event.now.kind ++ codes " "
        ++ spec.name_text event.now.actor) }
{
    put_number(text, event.site);
    text.put(b" ");
    text.put(kind_word(event.kind));
    text.put(b" ");
    put_name(text, event.actor)
}

/// The eight fields.
fn put_eight(text: &mut TextWriter, event: &Event)
    ensures { Writes text.old text.new (spec.event_line First event.now) }
{
    put_actor(text, event);
    text.put(b" ");
    put_optional(text, event.other);
    text.put(b" ");
    put_tag(text, event.tag);
    text.put(b" ");
    put_made(text, event.made)
}

/// The ninth field with the space before it, in the format that has it.
fn put_ninth(text: &mut TextWriter, format: Format, kind: Kind, role: Role)
    ensures { Writes text.old text.new (ninth format kind role) }
{
    match format {
        Format::First => {}
        Format::Second => {
            text.put(b" ");
            text.put(high_word(kind, role))
        }
    }
}

/// An event's line, with its line feed.
#[tactic(auto, using(crate::proofs::Written::line_written))]
fn put_line(text: &mut TextWriter, format: Format, event: &Event)
    ensures { Writes text.old text.new (spec.event_line format event.now ++ codes "\n") }
{
    put_eight(text, event);
    put_ninth(text, format, event.kind, event.tag.role);
    text.put(b"\n")
}

fn put_lines(text: &mut TextWriter, format: Format, events: &[Event])
    ensures { Writes text.old text.new (spec.text_of (map (spec.event_line format) events.now)) }
{
    for event in events {
        put_line(text, format, event);
    }
}

/// The lines of the events, between this first line and the last.
fn text_under(alloc: Global, first: &[u8], format: Format, events: &[Event]) -> Result<Text, Memory>
    ensures { IfOk result (λ text. text ≡ spec.text_of (spec.lines_under first.now format events.now)) }
{
    let mut text = TextWriter::new(alloc);
    text.put(first);
    text.put(b"\n");
    put_lines(&mut text, format, events);
    text.put(b"end\n");
    text.finish()
}

/// The history text of the events, in a format.
pub fn write_in(alloc: Global, format: Format, events: &[Event]) -> Result<Text, Memory>
    ensures { IfOk result (λ text. text ≡ spec.history_text format events.now) }
{
    text_under(alloc, first_line(format), format, events)
}

/// The history text of the events, in the second format.
pub fn write_history(alloc: Global, events: &[Event]) -> Result<Text, Memory>
    ensures { IfOk result (λ text. text ≡ spec.history_text Second events.now) }
{
    text_under(alloc, first_line(Format::Second), Format::Second, events)
}

/// The history text of the events, in the first format.
pub fn write_history_1(alloc: Global, events: &[Event]) -> Result<Text, Memory>
    ensures { IfOk result (λ text. text ≡ spec.history_text First events.now) }
{
    text_under(alloc, first_line(Format::First), Format::First, events)
}

/// The high text of the events.
pub fn write_high(alloc: Global, events: &[Event]) -> Result<Text, Memory>
    ensures { IfOk result (λ text. text ≡ spec.high_text events.now) }
{
    text_under(alloc, b"high 1", Format::First, events)
}
