//! Each shape as an element.

ghost use Rattle.std.specs.Prelude.{◌≡◌, decimal};
ghost use Rattle.std.specs.List.{flat_map};
ghost use Rattle.text_writer.specs.Writes.{Writes};
ghost use Rattle.markup_text.specs.Attributes.{attribute_text};
ghost use Rattle.markup_text.specs.Escapes.{escaped};
ghost use Rattle.markup_text.specs.Markup.{element_text, opening};
ghost use Rattle.markup_text.specs.declared.words.Tag.TheVariants as tags;
ghost use Rattle.picture_svg.specs.Elements as spec;

use super::shapes::{Flight, Form, Head, Hue, Look, Point, Shape, Spot};
use itoa::Buffer;
use markup_text::{
    AttributeName, Tag, close_tag, close_value, open_tag, open_value, put_closing, put_escaped,
    put_number_attribute, put_words_attribute,
};
use text_writer::TextWriter;

/// How large the marks of events are.
const DOT: u32 = 5;

const TICK: u32 = 2;

fn look_word(look: Look) -> &'static [u8]
    ensures { result.now ≡ spec.look_word look }
{
    match look {
        Look::Paper => b"paper",
        Look::Band => b"band",
        Look::Site => b"site",
        Look::Title => b"title",
        Look::Small => b"small",
        Look::Path => b"path",
        Look::Idle => b"idle",
        Look::Birth => b"birth",
        Look::Message => b"message",
        Look::Net => b"net",
        Look::Dot => b"dot",
        Look::Ring => b"ring",
        Look::Take => b"take",
        Look::Print => b"print",
        Look::Sent => b"sent",
        Look::Tick => b"tick",
        Look::Lost => b"lost",
        Look::Pill => b"pill",
        Look::PillName => b"pillname",
        Look::Name => b"name",
        Look::Say => b"say",
        Look::Number => b"number",
        Look::End => b"end",
        Look::Ribbon => b"ribbon",
    }
}

fn put_digits(text: &mut TextWriter, number: u32)
    ensures { Writes text.old text.new (escaped (decimal number)) }
{
    put_escaped(text, Buffer::new().format(number).as_bytes())
}

/// Writes the class of a colour, with a space before it, as it stands in the value of an attribute.
pub fn put_hue(text: &mut TextWriter, hue: Hue)
    ensures { Writes text.old text.new (escaped (spec.hue_word hue)) }
{
    match hue {
        Hue::Plain => {}
        Hue::Main => put_escaped(text, b" main"),
        Hue::Daemon => put_escaped(text, b" daemon"),
        Hue::Agent(number) => {
            put_escaped(text, b" a");
            put_digits(text, number)
        }
    }
}

fn put_pale(text: &mut TextWriter, pale: bool)
    ensures { Writes text.old text.new (escaped (spec.pale_word pale)) }
{
    if pale {
        put_escaped(text, b" pale")
    }
}

/// The attribute that names the look and the colour, and whether a shape is pale.
fn put_class(text: &mut TextWriter, look: Look, hue: Hue, pale: bool)
    ensures { Writes text.old text.new (attribute_text (spec.class_of look hue pale)) }
{
    open_value(text, AttributeName::Class);
    put_escaped(text, look_word(look));
    put_hue(text, hue);
    put_pale(text, pale);
    close_value(text)
}

/// Two numbers, as those of a point.
fn put_point(text: &mut TextWriter, across: AttributeName, down: AttributeName, at: Point)
    ensures { Writes text.old text.new (flat_map attribute_text (spec.point across down at)) }
{
    put_number_attribute(text, across, at.x);
    put_number_attribute(text, down, at.y)
}

fn put_disc(text: &mut TextWriter, at: Point, radius: u32)
    ensures { Writes text.old text.new (flat_map attribute_text (spec.disc at radius)) }
{
    put_point(text, AttributeName::CenterX, AttributeName::CenterY, at);
    put_number_attribute(text, AttributeName::Radius, radius)
}

fn put_plate(text: &mut TextWriter, at: Point, width: u32, height: u32, corner: u32)
    ensures { Writes text.old text.new (flat_map attribute_text (spec.plate at width height corner)) }
{
    put_point(text, AttributeName::X, AttributeName::Y, at);
    put_number_attribute(text, AttributeName::Width, width);
    put_number_attribute(text, AttributeName::Height, height);
    put_number_attribute(text, AttributeName::Corner, corner)
}

fn put_line(text: &mut TextWriter, from: Point, to: Point)
    ensures { Writes text.old text.new (flat_map attribute_text (spec.line from to)) }
{
    put_point(text, AttributeName::X1, AttributeName::Y1, from);
    put_point(text, AttributeName::X2, AttributeName::Y2, to)
}

/// The attributes of a form.
fn put_form(text: &mut TextWriter, form: &Form)
    ensures { Writes text.old text.new (flat_map attribute_text (spec.form_of form.now)) }
{
    match form {
        Form::Disc { at, radius } => put_disc(text, *at, *radius),
        Form::Plate {
            at,
            width,
            height,
            corner,
        } => put_plate(text, *at, *width, *height, *corner),
        Form::Line { from, to } => put_line(text, *from, *to),
        Form::Words { at, text: _ } => put_point(text, AttributeName::X, AttributeName::Y, *at),
    }
}

fn tag_of(form: &Form) -> Tag
    ensures { result ≡ spec.tag_of form.now }
{
    match form {
        Form::Disc { .. } => Tag::Circle,
        Form::Plate { .. } => Tag::Rect,
        Form::Line { .. } => Tag::Line,
        Form::Words { .. } => Tag::Label,
    }
}

/// The text that stands in a form.
fn put_inner(text: &mut TextWriter, form: &Form)
    ensures { Writes text.old text.new (escaped (spec.words_of form.now)) }
{
    match form {
        Form::Words { at: _, text: words } => put_escaped(text, words.as_slice()),
        _ => {}
    }
}

/// Writes the element of a shape.
pub(crate) fn put_shape(text: &mut TextWriter, shape: &Shape)
    ensures { Writes text.old text.new (element_text (spec.shape_element shape.now)) }
{
    let tag = tag_of(&shape.form);
    open_tag(text, tag);
    put_class(text, shape.look, shape.hue, shape.pale);
    put_form(text, &shape.form);
    close_tag(text);
    put_inner(text, &shape.form);
    put_closing(text, tag)
}

fn radius_of(look: Look) -> u32
    ensures { result ≡ spec.radius_of look }
{
    match look {
        Look::Tick | Look::Sent => TICK,
        _ => DOT,
    }
}

/// Writes the element of a mark, with the number of its event.
pub(crate) fn put_spot(text: &mut TextWriter, spot: &Spot)
    ensures { Writes text.old text.new (element_text (spec.spot_element spot.now)) }
{
    open_tag(text, Tag::Circle);
    put_class(text, spot.look, spot.hue, spot.pale);
    put_number_attribute(text, AttributeName::Event, spot.event);
    put_disc(text, spot.at, radius_of(spot.look));
    close_tag(text);
    put_closing(text, Tag::Circle)
}

/// Writes a point of a way, behind the letter that says how it is reached.
fn put_reached(text: &mut TextWriter, letter: &[u8], at: Point)
    ensures { Writes text.old text.new (escaped (spec.reached letter.now at)) }
{
    put_escaped(text, letter);
    put_digits(text, at.x);
    put_escaped(text, b" ");
    put_digits(text, at.y)
}

fn put_head(text: &mut TextWriter, head: Head)
    ensures { Writes text.old text.new (escaped (spec.head_way head)) }
{
    put_reached(text, b"M", head.left);
    put_reached(text, b"L", head.tip);
    put_reached(text, b"L", head.right);
    put_escaped(text, b"Z")
}

/// What stands in the way of an arrow behind its end.
fn put_head_part(text: &mut TextWriter, head: Option<Head>)
    ensures { Writes text.old text.new (escaped (spec.head_part head)) }
{
    if let Some(head) = head {
        put_head(text, head)
    }
}

/// The way of an arrow, from its start to its end, and then round its head.
fn put_way(text: &mut TextWriter, flight: &Flight)
    ensures { Writes text.old text.new (attribute_text (spec.way_of flight.now)) }
{
    open_value(text, AttributeName::Data);
    put_reached(text, b"M", flight.start);
    put_reached(text, b"L", flight.end);
    put_head_part(text, flight.head);
    close_value(text)
}

/// Writes the element of an arrow, with the number of the event that it comes to.
pub(crate) fn put_flight(text: &mut TextWriter, flight: &Flight)
    ensures { Writes text.old text.new (element_text (spec.flight_element flight.now)) }
{
    open_tag(text, Tag::Path);
    put_class(text, flight.look, flight.hue, flight.pale);
    put_number_attribute(text, AttributeName::Event, flight.to);
    put_way(text, flight);
    close_tag(text);
    put_closing(text, Tag::Path)
}

/// Writes the tag that opens a picture as a whole, which begins so far from the left.
pub(crate) fn put_root(text: &mut TextWriter, left: u32, width: u32, height: u32)
    ensures { Writes text.old text.new (opening tags.Svg (spec.root_attributes left width height)) }
{
    open_tag(text, Tag::Svg);
    put_words_attribute(
        text,
        AttributeName::Namespace,
        b"http://www.w3.org/2000/svg",
    );
    put_number_attribute(text, AttributeName::X, left);
    put_number_attribute(text, AttributeName::Width, width);
    put_number_attribute(text, AttributeName::Height, height);
    close_tag(text)
}
