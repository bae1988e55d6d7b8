//! The tables of the events.

ghost use Rattle.std.specs.Prelude.{◌≡◌, ◌++◌, ◌+◌, codes};
ghost use Rattle.text_writer.specs.Writes.{Writes};
ghost use Rattle.markup_text.specs.declared.words.AttributeName.TheVariants as names;
ghost use Rattle.markup_text.specs.declared.words.Tag.TheVariants as tags;
ghost use Rattle.markup_text.specs.Attributes.{attribute_text, words};
ghost use Rattle.markup_text.specs.Markup.{opening};
ghost use Rattle.picture_svg.specs.Elements.{hue_word};
ghost use Rattle.page_html.specs.Parts.{classed, counted};
ghost use Rattle.page_html.specs.Tables as spec;

use super::marks::{letter, other_letter, put_id, put_needs};
use super::page::{Level, Row, View};
use super::parts::{put_classed, put_leaf, put_link, put_plain};
use itoa::Buffer;
use markup_text::{
    AttributeName, Tag, close_tag, close_value, open_tag, open_value, put_closing, put_escaped,
    put_number_attribute, put_opening, put_words_attribute,
};
use picture_svg::{Hue, put_hue};
use text_writer::TextWriter;

/// Whether the source says an event, as a class.
fn own_word(own: bool) -> &'static [u8]
    ensures { result.now ≡ spec.own_word own }
{
    if own { b"own" } else { b"infra" }
}

/// Writes the tag that opens the row of an event.
fn put_opened_row(text: &mut TextWriter, level: Level, number: usize, row: &Row)
    ensures { Writes text.old text.new (opening tags.TableRow (spec.row_attributes level number row.now)) }
{
    open_tag(text, Tag::TableRow);
    put_id(text, letter(level), number);
    put_words_attribute(text, AttributeName::Class, own_word(row.own));
    put_needs(text, row.needs.as_slice());
    put_number_attribute(text, AttributeName::Twin, row.twin);
    put_number_attribute(text, AttributeName::Node, row.node);
    close_tag(text)
}

/// Writes a number that leads to its mark.
fn put_number_link(text: &mut TextWriter, letter: &[u8], number: usize)
    ensures { Writes text.old text.new (spec.number_link letter.now number) }
{
    let mut digits = Buffer::new();
    put_link(text, letter, number, digits.format(number).as_bytes())
}

fn put_number(text: &mut TextWriter, level: Level, number: usize)
    ensures { Writes text.old text.new (spec.number_cell level number) }
{
    put_classed(text, Tag::Cell, b"num");
    put_number_link(text, letter(level), number);
    put_closing(text, Tag::Cell)
}

/// Writes the class of an agent's name.
fn put_who_class(text: &mut TextWriter, hue: Hue)
    ensures { Writes text.old text.new (attribute_text (words names.Class (codes "who" ++ hue_word hue))) }
{
    open_value(text, AttributeName::Class);
    put_escaped(text, b"who");
    put_hue(text, hue);
    close_value(text)
}

fn put_opened_who(text: &mut TextWriter, hue: Hue)
    ensures { Writes text.old text.new (classed tags.Strong (codes "who" ++ hue_word hue)) }
{
    open_tag(text, Tag::Strong);
    put_who_class(text, hue);
    close_tag(text)
}

fn put_who(text: &mut TextWriter, row: &Row)
    ensures { Writes text.old text.new (spec.who_text row.now) }
{
    put_opened_who(text, row.hue);
    put_escaped(text, row.agent.as_slice());
    put_closing(text, Tag::Strong)
}

/// Writes who acts and what that agent does.
fn put_say(text: &mut TextWriter, row: &Row)
    ensures { Writes text.old text.new (spec.say_cell row.now) }
{
    put_classed(text, Tag::Cell, b"say");
    put_who(text, row);
    put_escaped(text, b" ");
    put_escaped(text, row.words.as_slice());
    put_closing(text, Tag::Cell)
}

/// Writes the line of the source, and the words there.
fn put_code(text: &mut TextWriter, row: &Row)
    ensures { Writes text.old text.new (spec.code_text row.now) }
{
    put_number_link(text, b"s", row.line as usize);
    put_escaped(text, b" ");
    put_plain(text, Tag::Code, row.code.as_slice())
}

/// The same, where there are some.
fn put_place(text: &mut TextWriter, row: &Row)
    ensures { Writes text.old text.new (spec.place_text row.now) }
{
    if row.line != 0 {
        put_code(text, row)
    }
}

fn put_at(text: &mut TextWriter, row: &Row)
    ensures { Writes text.old text.new (spec.at_cell row.now) }
{
    put_classed(text, Tag::Cell, b"at");
    put_place(text, row);
    put_closing(text, Tag::Cell)
}

/// Writes the number of the event of the other level, where there is one.
fn put_twin_link(text: &mut TextWriter, level: Level, twin: u32)
    ensures { Writes text.old text.new (spec.twin_text level twin) }
{
    if twin != 0 {
        put_number_link(text, other_letter(level), twin as usize)
    }
}

fn put_twin(text: &mut TextWriter, level: Level, twin: u32)
    ensures { Writes text.old text.new (spec.twin_cell level twin) }
{
    put_classed(text, Tag::Cell, b"num");
    put_twin_link(text, level, twin);
    put_closing(text, Tag::Cell)
}

fn put_cells(text: &mut TextWriter, level: Level, number: usize, row: &Row)
    ensures { Writes text.old text.new (spec.cells level number row.now) }
{
    put_number(text, level, number);
    put_say(text, row);
    put_plain(text, Tag::Cell, row.site.as_slice());
    put_at(text, row);
    put_twin(text, level, row.twin);
    put_leaf(text, Tag::Cell, b"raw", row.event.as_slice())
}

/// Writes the row of an event.
fn put_row(text: &mut TextWriter, level: Level, number: usize, row: &Row)
    ensures { Writes text.old text.new (spec.row_text level number row.now) }
{
    put_opened_row(text, level, number, row);
    put_cells(text, level, number, row);
    put_closing(text, Tag::TableRow);
    text.put(b"\n")
}

fn put_rows(text: &mut TextWriter, level: Level, rows: &[Row])
    ensures { Writes text.old text.new (counted (spec.row_text level) 1 rows.now) }
{
    for index in 0..rows.len() {
        put_row(text, level, index + 1, &rows[index]);
    }
}

fn put_body(text: &mut TextWriter, level: Level, rows: &[Row])
    ensures { Writes text.old text.new (spec.body_text level rows.now) }
{
    put_opening(text, Tag::TableBody);
    put_rows(text, level, rows);
    put_closing(text, Tag::TableBody)
}

/// What the column of the numbers of the other level is called.
fn other_level(level: Level) -> &'static [u8]
    ensures { result.now ≡ spec.other_level level }
{
    match level {
        Level::High => b"Of the sites",
        Level::Low => b"Of the source",
    }
}

fn put_head_cells(text: &mut TextWriter, level: Level)
    ensures { Writes text.old text.new (spec.head_cells level) }
{
    put_plain(text, Tag::HeadCell, b"Event");
    put_plain(text, Tag::HeadCell, b"What happens");
    put_plain(text, Tag::HeadCell, b"Site");
    put_plain(text, Tag::HeadCell, b"Source");
    put_plain(text, Tag::HeadCell, other_level(level));
    put_plain(text, Tag::HeadCell, b"History")
}

fn put_head_row(text: &mut TextWriter, level: Level)
    ensures { Writes text.old text.new (spec.head_row level) }
{
    put_opening(text, Tag::TableRow);
    put_head_cells(text, level);
    put_closing(text, Tag::TableRow)
}

fn put_head(text: &mut TextWriter, level: Level)
    ensures { Writes text.old text.new (spec.head_text level) }
{
    put_opening(text, Tag::TableHead);
    put_head_row(text, level);
    put_closing(text, Tag::TableHead)
}

fn put_grid(text: &mut TextWriter, level: Level, rows: &[Row])
    ensures { Writes text.old text.new (spec.grid_text level rows.now) }
{
    put_opening(text, Tag::Table);
    put_head(text, level);
    put_body(text, level, rows);
    put_closing(text, Tag::Table)
}

fn put_wide(text: &mut TextWriter, level: Level, rows: &[Row])
    ensures { Writes text.old text.new (spec.wide_text level rows.now) }
{
    put_classed(text, Tag::Part, b"wide");
    put_grid(text, level, rows);
    put_closing(text, Tag::Part)
}

/// Writes the table of the events of a level.
pub(super) fn put_table(text: &mut TextWriter, level: Level, view: &View)
    ensures { Writes text.old text.new (spec.table_text level view.now) }
{
    put_classed(text, Tag::Details, b"events");
    put_plain(text, Tag::Summary, view.summary.as_slice());
    put_wide(text, level, view.rows.as_slice());
    put_closing(text, Tag::Details)
}
