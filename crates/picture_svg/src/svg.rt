//! The text of a picture.

ghost use Rattle.std.specs.Prelude.{◌≡◌, ◌≤◌, ◌++◌, codes, map, IfOk};
ghost use Rattle.std.specs.List.{flat_map};
ghost use Rattle.text_writer.specs.Writes.{Writes};
ghost use Rattle.markup_text.specs.Markup.{element_text, markup_text};
ghost use Rattle.picture_svg.specs.declared.shapes.TheConstants.{WIDEST};
ghost use Rattle.picture_svg.specs.Elements.{flight_element, shape_element, spot_element};
ghost use Rattle.picture_svg.specs.Svg.{body_text, style_element, svg, svg_of_both};

use super::elements::{put_flight, put_root, put_shape, put_spot};
use super::shapes::{Drawing, Flight, Shape, Spot};
use markup_text::{Tag, put_closing, put_escaped, put_opening};
use np_syntax::{Memory, Text};
use std::alloc::Global;
use text_writer::TextWriter;

fn put_style(text: &mut TextWriter, style: &[u8])
    ensures { Writes text.old text.new (element_text (style_element style.now)) }
{
    put_opening(text, Tag::Style);
    put_escaped(text, style);
    put_closing(text, Tag::Style)
}

fn put_shapes(text: &mut TextWriter, shapes: &[Shape])
    ensures { Writes text.old text.new (flat_map element_text (map shape_element shapes.now)) }
{
    for shape in shapes {
        put_shape(text, shape);
    }
}

fn put_flights(text: &mut TextWriter, flights: &[Flight])
    ensures { Writes text.old text.new (flat_map element_text (map flight_element flights.now)) }
{
    for flight in flights {
        put_flight(text, flight);
    }
}

fn put_spots(text: &mut TextWriter, spots: &[Spot])
    ensures { Writes text.old text.new (flat_map element_text (map spot_element spots.now)) }
{
    for spot in spots {
        put_spot(text, spot);
    }
}

/// What stands in a picture.
fn put_body(text: &mut TextWriter, style: &[u8], drawing: &Drawing)
    ensures { Writes text.old text.new (body_text style.now drawing.now) }
{
    put_style(text, style);
    put_shapes(text, drawing.ground.as_slice());
    put_flights(text, drawing.flights.as_slice());
    put_flights(text, drawing.posts.as_slice());
    put_spots(text, drawing.spots.as_slice());
    put_shapes(text, drawing.words.as_slice())
}

/// Writes a picture with a style, which begins so far from the left: markup, in which each shape is an element.
fn put_svg(text: &mut TextWriter, left: u32, style: &[u8], drawing: &Drawing)
    ensures { Writes text.old text.new (markup_text (svg left style.now drawing.now)) }
{
    put_root(text, left, drawing.width, drawing.height);
    put_body(text, style, drawing);
    put_closing(text, Tag::Svg)
}

/// Writes two pictures side by side in one.
fn put_both(text: &mut TextWriter, style: &[u8], first: &Drawing, second: &Drawing)
    requires first { first.now.width ≤ WIDEST }
    requires second { second.now.width ≤ WIDEST }
    ensures { Writes text.old text.new (markup_text (svg_of_both style.now first.now second.now)) }
{
    put_root(text, 0, first.width + second.width, second.height);
    put_svg(text, 0, style, first);
    put_svg(text, first.width, style, second);
    put_closing(text, Tag::Svg)
}

/// The text of a picture with a style.
pub(crate) fn svg_text(alloc: Global, style: &[u8], drawing: &Drawing) -> Result<Text, Memory>
    ensures { IfOk result (λ text. text ≡ markup_text (svg 0 style.now drawing.now) ++ codes "\n") }
{
    let mut text = TextWriter::new(alloc);
    put_svg(&mut text, 0, style, drawing);
    text.put(b"\n");
    text.finish()
}

/// The text of two pictures side by side.
pub(crate) fn both_svg(
    alloc: Global,
    style: &[u8],
    first: &Drawing,
    second: &Drawing,
) -> Result<Text, Memory>
    requires first { first.now.width ≤ WIDEST }
    requires second { second.now.width ≤ WIDEST }
    ensures { IfOk result (λ text. text ≡ markup_text (svg_of_both style.now first.now second.now) ++ codes "\n") }
{
    let mut text = TextWriter::new(alloc);
    put_both(&mut text, style, first, second);
    text.put(b"\n");
    text.finish()
}
