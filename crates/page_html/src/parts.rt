//! Elements that pages are made of.

ghost use Rattle.std.specs.Prelude.{◌∷◌, []};
ghost use Rattle.text_writer.specs.Writes.{Writes};
ghost use Rattle.markup_text.specs.Attributes.{words};
ghost use Rattle.markup_text.specs.Markup.{opening};
ghost use Rattle.page_html.specs.Marks.{target};
ghost use Rattle.page_html.specs.Parts as spec;

use super::marks::put_href;
use markup_text::{
    AttributeName, Tag, close_tag, open_tag, put_closing, put_escaped, put_opening,
    put_words_attribute,
};
use text_writer::TextWriter;

/// Writes the tag that opens an element with one attribute.
pub(super) fn put_opening_with(text: &mut TextWriter, tag: Tag, name: AttributeName, bytes: &[u8])
    ensures { Writes text.old text.new (opening tag (words name bytes.now ∷ [])) }
{
    open_tag(text, tag);
    put_words_attribute(text, name, bytes);
    close_tag(text)
}

/// Writes the tag that opens an element of a class.
pub(super) fn put_classed(text: &mut TextWriter, tag: Tag, class: &[u8])
    ensures { Writes text.old text.new (spec.classed tag class.now) }
{
    put_opening_with(text, tag, AttributeName::Class, class)
}

/// Writes an element without attributes, in which a text stands.
pub(super) fn put_plain(text: &mut TextWriter, tag: Tag, content: &[u8])
    ensures { Writes text.old text.new (spec.plain tag content.now) }
{
    put_opening(text, tag);
    put_escaped(text, content);
    put_closing(text, tag)
}

/// Writes an element of a class, in which a text stands.
pub(super) fn put_leaf(text: &mut TextWriter, tag: Tag, class: &[u8], content: &[u8])
    ensures { Writes text.old text.new (spec.leaf tag class.now content.now) }
{
    put_classed(text, tag, class);
    put_escaped(text, content);
    put_closing(text, tag)
}

/// Writes the tag that opens a link to a mark.
fn put_opened_link(text: &mut TextWriter, letter: &[u8], number: usize)
    ensures { Writes text.old text.new (spec.opened_link (target letter.now number)) }
{
    open_tag(text, Tag::Link);
    put_href(text, letter, number);
    close_tag(text)
}

/// Writes a link to a mark.
pub(super) fn put_link(text: &mut TextWriter, letter: &[u8], number: usize, content: &[u8])
    ensures { Writes text.old text.new (spec.link (target letter.now number) content.now) }
{
    put_opened_link(text, letter, number);
    put_escaped(text, content);
    put_closing(text, Tag::Link)
}
