//! The source on a page, and what was printed.

ghost use Rattle.std.specs.Prelude.{◌+◌};
ghost use Rattle.std.specs.List.{flat_map};
ghost use Rattle.text_writer.specs.Writes.{Writes};
ghost use Rattle.markup_text.specs.declared.words.AttributeName.TheVariants as names;
ghost use Rattle.markup_text.specs.declared.words.Tag.TheVariants as tags;
ghost use Rattle.markup_text.specs.Attributes.{attribute_text, words};
ghost use Rattle.markup_text.specs.Escapes.{escaped};
ghost use Rattle.markup_text.specs.Markup.{opening};
ghost use Rattle.page_html.specs.Parts.{counted};
ghost use Rattle.page_html.specs.Sources as spec;

use super::marks::{put_digits, put_id};
use super::page::Printed;
use super::parts::{put_classed, put_leaf, put_link, put_plain};
use markup_text::{
    AttributeName, Tag, close_tag, close_value, open_tag, open_value, put_closing, put_escaped,
    put_number_attribute, put_opening,
};
use source_words::{Class, Line, Word};
use text_writer::TextWriter;

/// Writes the class of a word, as a word.
fn put_class_word(text: &mut TextWriter, class: Class)
    ensures { Writes text.old text.new (escaped (spec.class_word class)) }
{
    match class {
        Class::Blank => put_escaped(text, b"w"),
        Class::Comment => put_escaped(text, b"c"),
        Class::Keyword => put_escaped(text, b"k"),
        Class::Type => put_escaped(text, b"t"),
        Class::Literal => put_escaped(text, b"v"),
        Class::Sign => put_escaped(text, b"o"),
        Class::Name => put_escaped(text, b"n"),
        Class::Agent(hue) => put_agent_word(text, hue),
    }
}

fn put_agent_word(text: &mut TextWriter, hue: u32)
    ensures { Writes text.old text.new (escaped (spec.agent_word hue)) }
{
    put_escaped(text, b"n a");
    put_digits(text, hue as usize)
}

fn put_class(text: &mut TextWriter, class: Class)
    ensures { Writes text.old text.new (attribute_text (words names.Class (spec.class_word class))) }
{
    open_value(text, AttributeName::Class);
    put_class_word(text, class);
    close_value(text)
}

fn put_opened_word(text: &mut TextWriter, word: &Word)
    ensures { Writes text.old text.new (opening tags.Span (spec.word_attributes word.now)) }
{
    open_tag(text, Tag::Span);
    put_class(text, word.dye.class);
    put_number_attribute(text, AttributeName::Node, word.dye.node);
    close_tag(text)
}

fn put_word(text: &mut TextWriter, word: &Word)
    ensures { Writes text.old text.new (spec.word_text word.now) }
{
    put_opened_word(text, word);
    put_escaped(text, word.text.as_slice());
    put_closing(text, Tag::Span)
}

fn put_words(text: &mut TextWriter, words: &[Word])
    ensures { Writes text.old text.new (flat_map spec.word_text words.now) }
{
    for word in words {
        put_word(text, word);
    }
}

fn put_code(text: &mut TextWriter, line: &Line)
    ensures { Writes text.old text.new (spec.code_text line.now) }
{
    put_opening(text, Tag::Code);
    put_words(text, line.words.as_slice());
    put_closing(text, Tag::Code)
}

fn put_opened_line(text: &mut TextWriter, number: usize)
    ensures { Writes text.old text.new (spec.opened_line number) }
{
    open_tag(text, Tag::Item);
    put_id(text, b"s", number);
    close_tag(text)
}

/// Writes a line with its number.
fn put_line(text: &mut TextWriter, number: usize, line: &Line)
    ensures { Writes text.old text.new (spec.line_text number line.now) }
{
    put_opened_line(text, number);
    put_code(text, line);
    put_closing(text, Tag::Item);
    text.put(b"\n")
}

fn put_lines(text: &mut TextWriter, lines: &[Line])
    ensures { Writes text.old text.new (counted spec.line_text 1 lines.now) }
{
    for index in 0..lines.len() {
        put_line(text, index + 1, &lines[index]);
    }
}

fn put_list(text: &mut TextWriter, lines: &[Line])
    ensures { Writes text.old text.new (spec.list_text lines.now) }
{
    put_classed(text, Tag::Ordered, b"code");
    put_lines(text, lines);
    put_closing(text, Tag::Ordered)
}

/// Writes the source.
pub(super) fn put_source(text: &mut TextWriter, lines: &[Line])
    ensures { Writes text.old text.new (spec.source_text lines.now) }
{
    put_classed(text, Tag::Section, b"source");
    put_plain(text, Tag::Subheading, b"Source");
    put_list(text, lines);
    put_closing(text, Tag::Section)
}

/// Writes what was printed by an event.
fn put_printed(text: &mut TextWriter, printed: &Printed)
    ensures { Writes text.old text.new (spec.printed_text printed.now) }
{
    put_opening(text, Tag::Item);
    put_link(text, b"h", printed.event as usize, printed.text.as_slice());
    put_closing(text, Tag::Item);
    text.put(b"\n")
}

fn put_each_printed(text: &mut TextWriter, printed: &[Printed])
    ensures { Writes text.old text.new (flat_map spec.printed_text printed.now) }
{
    for one in printed {
        put_printed(text, one);
    }
}

fn put_print_list(text: &mut TextWriter, printed: &[Printed], end: &[u8])
    ensures { Writes text.old text.new (spec.print_list printed.now end.now) }
{
    put_classed(text, Tag::Unordered, b"out");
    put_each_printed(text, printed);
    put_leaf(text, Tag::Item, b"ended", end);
    put_closing(text, Tag::Unordered)
}

/// Writes all that was printed, and how the run ended.
pub(super) fn put_prints(text: &mut TextWriter, printed: &[Printed], end: &[u8])
    ensures { Writes text.old text.new (spec.prints_text printed.now end.now) }
{
    put_classed(text, Tag::Section, b"prints");
    put_plain(text, Tag::Subheading, b"Printed");
    put_print_list(text, printed, end);
    put_closing(text, Tag::Section)
}
