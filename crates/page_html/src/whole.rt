//! A page as a whole.

ghost use Rattle.std.specs.Prelude.{◌≡◌, IfOk};
ghost use Rattle.text_writer.specs.Writes.{Writes};
ghost use Rattle.markup_text.specs.declared.words.Tag.TheVariants as tags;
ghost use Rattle.markup_text.specs.Markup.{opening};
ghost use Rattle.picture_svg.specs.declared.style.TheConstants.{STYLE as PICTURES};
ghost use Rattle.page_html.specs.declared.script.TheConstants.{SCRIPT};
ghost use Rattle.page_html.specs.declared.style.TheConstants.{STYLE};
ghost use Rattle.page_html.specs.Pages as spec;

use super::head::{policy, put_head};
use super::page::{Level, Page};
use super::parts::{put_classed, put_leaf, put_opening_with, put_plain};
use super::script::SCRIPT;
use super::source::{put_prints, put_source};
use super::style::STYLE;
use super::tables::put_table;
use super::views::put_views;
use markup_text::{
    AttributeName, Tag, close_tag, open_tag, put_closing, put_opening, put_words_attribute,
};
use np_syntax::{Memory, Text};
use picture_svg::STYLE as PICTURES;
use std::alloc::Global;
use text_writer::TextWriter;

/// What stands where no event is chosen yet, and at the foot of a page.
const HINT: &[u8] =
    b"Choose an event: in the picture, by its number, by what it printed, or by its words in the source. Here \
stands then what led to it, and what it is at the other level. The arrow keys go on from there, and Esc ends.";

const FOOT: &[u8] =
    b"One file, no network. Time runs downward, in the order of the history. A row is an event, and heights are no \
durations.";

fn put_header(text: &mut TextWriter, page: &Page)
    ensures { Writes text.old text.new (spec.header_text page.now) }
{
    put_opening(text, Tag::Header);
    put_plain(text, Tag::Heading, page.title.as_slice());
    put_plain(text, Tag::Paragraph, page.summary.as_slice());
    put_closing(text, Tag::Header)
}

fn put_opened_chosen(text: &mut TextWriter)
    ensures { Writes text.old text.new (opening tags.Section spec.chosen_attributes) }
{
    open_tag(text, Tag::Section);
    put_words_attribute(text, AttributeName::Class, b"chosen");
    put_words_attribute(text, AttributeName::Live, b"polite");
    close_tag(text)
}

/// Writes the place where a script tells of the event that is chosen.
fn put_chosen(text: &mut TextWriter, hint: &[u8])
    ensures { Writes text.old text.new (spec.chosen_text hint.now) }
{
    put_opened_chosen(text);
    put_plain(text, Tag::Subheading, b"Chosen event");
    put_leaf(text, Tag::Part, b"told", hint);
    put_closing(text, Tag::Section)
}

/// Writes what stands at the left.
fn put_left(text: &mut TextWriter, page: &Page, hint: &[u8])
    ensures { Writes text.old text.new (spec.left_text page.now hint.now) }
{
    put_classed(text, Tag::Part, b"left");
    put_source(text, page.lines.as_slice());
    put_prints(text, page.printed.as_slice(), page.end.as_slice());
    put_chosen(text, hint);
    put_closing(text, Tag::Part)
}

fn put_main(text: &mut TextWriter, page: &Page, hint: &[u8])
    ensures { Writes text.old text.new (spec.main_text page.now hint.now) }
{
    put_opening(text, Tag::Main);
    put_left(text, page, hint);
    put_views(text, page);
    put_closing(text, Tag::Main)
}

fn put_tables(text: &mut TextWriter, page: &Page)
    ensures { Writes text.old text.new (spec.tables_text page.now) }
{
    put_table(text, Level::High, &page.high);
    put_table(text, Level::Low, &page.low)
}

fn put_body(text: &mut TextWriter, page: &Page, script: &[u8])
    ensures { Writes text.old text.new (spec.body_text page.now script.now) }
{
    put_opening(text, Tag::Body);
    put_header(text, page);
    put_main(text, page, HINT);
    put_tables(text, page);
    put_plain(text, Tag::Footer, FOOT);
    put_plain(text, Tag::Script, script);
    put_closing(text, Tag::Body)
}

/// Writes a page with this policy, style and script.
fn put_html(text: &mut TextWriter, page: &Page, policy: &[u8], style: &[u8], script: &[u8])
    ensures { Writes text.old text.new (spec.html_text page.now policy.now style.now script.now) }
{
    put_opening_with(text, Tag::Html, AttributeName::Language, b"en");
    put_head(text, page.title.as_slice(), policy, style);
    put_body(text, page, script);
    put_closing(text, Tag::Html)
}

/// The text of a page with this policy, style and script.
fn text_of(
    alloc: Global,
    page: &Page,
    policy: &[u8],
    style: &[u8],
    script: &[u8],
) -> Result<Text, Memory>
    ensures { IfOk result (λ text. text ≡ spec.text_of page.now policy.now style.now script.now) }
{
    let mut text = TextWriter::new(alloc);
    text.put(b"<!DOCTYPE html>\n");
    put_html(&mut text, page, policy, style, script);
    text.put(b"\n");
    text.finish()
}

/// The text of a page. Its policy is that of its style, of the style of its pictures, and of its script.
pub fn page_text(alloc: Global, page: &Page) -> Result<Text, Memory>
    ensures { IfOk result (λ text. text ≡ spec.page_text page.now STYLE.now PICTURES.now SCRIPT.now) }
{
    let policy = policy(alloc, STYLE, PICTURES, SCRIPT)?;
    text_of(alloc, page, policy.as_slice(), STYLE, SCRIPT)
}
