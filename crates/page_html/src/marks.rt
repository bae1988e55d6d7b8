//! Marks, to which links on a page lead: of an event by its level and number, of a line of the source by its number.

ghost use Rattle.std.specs.Prelude.{◌≡◌, decimal};
ghost use Rattle.text_writer.specs.Writes.{Writes};
ghost use Rattle.markup_text.specs.declared.words.AttributeName.TheVariants as names;
ghost use Rattle.markup_text.specs.Attributes.{attribute_text, words};
ghost use Rattle.markup_text.specs.Escapes.{escaped};
ghost use Rattle.page_html.specs.Marks as spec;

use super::page::Level;
use itoa::Buffer;
use markup_text::{AttributeName, close_value, open_value, put_escaped};
use text_writer::TextWriter;

/// The letter of a level.
pub(super) fn letter(level: Level) -> &'static [u8]
    ensures { result.now ≡ spec.letter level }
{
    match level {
        Level::High => b"h",
        Level::Low => b"l",
    }
}

/// The letter of the other level.
pub(super) fn other_letter(level: Level) -> &'static [u8]
    ensures { result.now ≡ spec.other_letter level }
{
    match level {
        Level::High => b"l",
        Level::Low => b"h",
    }
}

/// Writes a number, as it stands in the value of an attribute.
pub(super) fn put_digits(text: &mut TextWriter, number: usize)
    ensures { Writes text.old text.new (escaped (decimal number)) }
{
    put_escaped(text, Buffer::new().format(number).as_bytes())
}

/// Writes the attribute that makes an element the mark of this letter and number.
pub(super) fn put_id(text: &mut TextWriter, letter: &[u8], number: usize)
    ensures { Writes text.old text.new (attribute_text (words names.Id (spec.mark letter.now number))) }
{
    open_value(text, AttributeName::Id);
    put_escaped(text, letter);
    put_digits(text, number);
    close_value(text)
}

/// Writes the attribute that leads to a mark.
pub(super) fn put_href(text: &mut TextWriter, letter: &[u8], number: usize)
    ensures { Writes text.old text.new (attribute_text (words names.Href (spec.target letter.now number))) }
{
    open_value(text, AttributeName::Href);
    put_escaped(text, b"#");
    put_escaped(text, letter);
    put_digits(text, number);
    close_value(text)
}

fn put_spaced(text: &mut TextWriter, number: u32)
    ensures { Writes text.old text.new (escaped (spec.spaced number)) }
{
    put_digits(text, number as usize);
    put_escaped(text, b" ")
}

/// Writes numbers, each with a space behind it.
fn put_numbers(text: &mut TextWriter, numbers: &[u32])
    ensures { Writes text.old text.new (escaped (spec.numbers numbers.now)) }
{
    for number in numbers {
        put_spaced(text, *number);
    }
}

/// Writes the attribute that says which events are needed.
pub(super) fn put_needs(text: &mut TextWriter, numbers: &[u32])
    ensures { Writes text.old text.new (attribute_text (words names.Needs (spec.numbers numbers.now))) }
{
    open_value(text, AttributeName::Needs);
    put_numbers(text, numbers);
    close_value(text)
}
