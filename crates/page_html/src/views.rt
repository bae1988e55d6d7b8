//! The pictures of both levels, and what chooses which is shown.

ghost use Rattle.std.specs.List.{flat_map};
ghost use Rattle.text_writer.specs.Writes.{Writes};
ghost use Rattle.markup_text.specs.Attributes.{attribute_text};
ghost use Rattle.page_html.specs.Views as spec;

use super::page::{Page, View};
use super::parts::{put_classed, put_leaf, put_opening_with, put_plain};
use markup_text::{
    AttributeName, Tag, close_single, open_tag, put_closing, put_escaped, put_words_attribute,
};
use text_writer::TextWriter;

fn put_choice_attributes(text: &mut TextWriter, id: &[u8])
    ensures { Writes text.old text.new (flat_map attribute_text (spec.choice_attributes id.now)) }
{
    put_words_attribute(text, AttributeName::Kind, b"radio");
    put_words_attribute(text, AttributeName::Name, b"level");
    put_words_attribute(text, AttributeName::Class, b"tab");
    put_words_attribute(text, AttributeName::Id, id)
}

/// Writes the choice of a view.
fn put_choice(text: &mut TextWriter, id: &[u8])
    ensures { Writes text.old text.new (spec.choice id.now) }
{
    open_tag(text, Tag::Input);
    put_choice_attributes(text, id);
    close_single(text)
}

/// Writes the choice that is made where nobody has chosen.
fn put_first_choice(text: &mut TextWriter, id: &[u8])
    ensures { Writes text.old text.new (spec.first_choice id.now) }
{
    open_tag(text, Tag::Input);
    put_choice_attributes(text, id);
    put_words_attribute(text, AttributeName::Checked, b"checked");
    close_single(text)
}

fn put_choices(text: &mut TextWriter)
    ensures { Writes text.old text.new (spec.choices) }
{
    put_first_choice(text, b"show-high");
    put_choice(text, b"show-low");
    put_choice(text, b"show-both")
}

/// Writes what a choice is called.
fn put_caption(text: &mut TextWriter, id: &[u8], title: &[u8])
    ensures { Writes text.old text.new (spec.caption id.now title.now) }
{
    put_opening_with(text, Tag::Caption, AttributeName::For, id);
    put_escaped(text, title);
    put_closing(text, Tag::Caption)
}

fn put_captions(text: &mut TextWriter)
    ensures { Writes text.old text.new (spec.captions) }
{
    put_classed(text, Tag::Paragraph, b"tabs");
    put_caption(text, b"show-high", b"The source");
    put_caption(text, b"show-low", b"The sites");
    put_caption(text, b"show-both", b"Both");
    put_closing(text, Tag::Paragraph)
}

/// Writes a picture, with what is said of it.
fn put_pane(text: &mut TextWriter, class: &[u8], view: &View)
    ensures { Writes text.old text.new (spec.pane class.now view.now) }
{
    put_classed(text, Tag::Part, class);
    put_leaf(text, Tag::Paragraph, b"note", view.note.as_slice());
    text.put(view.picture.as_slice());
    put_closing(text, Tag::Part)
}

fn put_panes(text: &mut TextWriter, high: &View, low: &View)
    ensures { Writes text.old text.new (spec.panes high.now low.now) }
{
    put_classed(text, Tag::Part, b"views");
    put_pane(text, b"view high", high);
    put_pane(text, b"view low", low);
    put_closing(text, Tag::Part)
}

/// Writes the pictures.
pub(super) fn put_views(text: &mut TextWriter, page: &Page)
    ensures { Writes text.old text.new (spec.views_text page.now) }
{
    put_classed(text, Tag::Section, b"pictures");
    put_plain(text, Tag::Subheading, b"Picture");
    put_choices(text);
    put_captions(text);
    put_panes(text, &page.high, &page.low);
    put_closing(text, Tag::Section)
}
