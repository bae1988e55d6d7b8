//! Elements, and how they are written.

ghost use Rattle.std.specs.Prelude.{[], codes};
ghost use Rattle.text_writer.specs.Writes.{Writes};
ghost use Rattle.markup_text.specs.Attributes.{attribute_text, number, value_opened, words};
ghost use Rattle.markup_text.specs.Markup as spec;

use super::escape::put_escaped;
use super::words::{AttributeName, Tag, attribute_word, tag_word};
use itoa::Buffer;
use text_writer::TextWriter;

/// Begins the tag that opens an element. Its attributes follow, and then `close_tag`, or `close_single` where nothing stands in it.
pub fn open_tag(text: &mut TextWriter, tag: Tag)
    ensures { Writes text.old text.new (spec.tag_opened tag) }
{
    text.put(b"<");
    text.put(tag_word(tag))
}

/// Ends the tag that opens an element.
pub fn close_tag(text: &mut TextWriter)
    ensures { Writes text.old text.new (codes ">") }
{
    text.put(b">")
}

/// Ends the tag of an element in which nothing may stand.
pub fn close_single(text: &mut TextWriter)
    ensures { Writes text.old text.new (codes "/>") }
{
    text.put(b"/>")
}

/// Begins an attribute. Its value follows, escaped, and then `close_value`.
pub fn open_value(text: &mut TextWriter, name: AttributeName)
    ensures { Writes text.old text.new (value_opened name) }
{
    text.put(b" ");
    text.put(attribute_word(name));
    text.put(b"=\"")
}

/// Ends an attribute.
pub fn close_value(text: &mut TextWriter)
    ensures { Writes text.old text.new (codes "\"") }
{
    text.put(b"\"")
}

/// Writes an attribute that says these words.
pub fn put_words_attribute(text: &mut TextWriter, name: AttributeName, bytes: &[u8])
    ensures { Writes text.old text.new (attribute_text (words name bytes.now)) }
{
    open_value(text, name);
    put_escaped(text, bytes);
    close_value(text)
}

/// Writes an attribute that says a number.
pub fn put_number_attribute(text: &mut TextWriter, name: AttributeName, value: u32)
    ensures { Writes text.old text.new (attribute_text (number name value)) }
{
    open_value(text, name);
    text.put(Buffer::new().format(value).as_bytes());
    close_value(text)
}

/// Writes the tag that opens an element without attributes.
pub fn put_opening(text: &mut TextWriter, tag: Tag)
    ensures { Writes text.old text.new (spec.opening tag []) }
{
    open_tag(text, tag);
    close_tag(text)
}

/// Writes the tag that closes an element.
pub fn put_closing(text: &mut TextWriter, tag: Tag)
    ensures { Writes text.old text.new (spec.closing tag) }
{
    text.put(b"</");
    text.put(tag_word(tag));
    text.put(b">")
}
