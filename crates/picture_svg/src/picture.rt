//! The picture of a run.

ghost use Rattle.std.specs.Prelude.{◌≤◌, length, IfOk};
ghost use Rattle.run_pictures.specs.declared.marks.TheConstants.{MOST_STEPS};
ghost use Rattle.run_pictures.specs.Layouts.{IsLayout};
ghost use Rattle.picture_svg.specs.declared.shapes.TheConstants.{WIDEST};
ghost use Rattle.picture_svg.specs.Pictures.{IsDrawn, IsPicture, IsPictureOfBoth};

use super::cast::{Binder, Cast, cast_of};
use super::drawing::{flights_of, posts_of, spots_of};
use super::frame::frame_of;
use super::ground::{add_words, ground_of, height_of};
use super::letters::words_reach;
use super::shapes::{Drawing, Hue, Look, Point, Shape, WIDEST};
use super::style::STYLE;
use super::svg::{both_svg, svg_text};
use super::telling::sentences_of;
use itoa::Buffer;
use np_syntax::{List, Memory, Text};
use run_pictures::{Followed, Layout, Mark, lay_beside, lay_out};
use std::alloc::Global;

/// How much room the numbers take, the sentences at least, and what is left free behind them.
const NUMBERS: u32 = 48;

const SENTENCES: u32 = 420;

const MARGIN: u32 = 16;

/// What is counted at each level.
pub const HIGH_UNIT: &[u8] = b" events of the source";

pub const LOW_UNIT: &[u8] = b" events of the sites";

/// What the picture is of: the name of the source, and how many events there are, and of what.
fn add_title(
    alloc: Global,
    words: &mut List<Shape>,
    title: &[u8],
    unit: &[u8],
    events: usize,
) -> Result<(), Memory> {
    let at = Point { x: 16, y: 30 };
    add_words(alloc, words, Look::Title, Hue::Plain, at, title)?;
    let mut digits = Buffer::new();
    let mut text = List::from_slice(alloc, digits.format(events).as_bytes())?;
    text.append(unit)?;
    let below = Point { x: 16, y: 51 };
    add_words(
        alloc,
        words,
        Look::Small,
        Hue::Plain,
        below,
        text.as_slice(),
    )
}

/// How wide a picture is in which the sentences begin so far from the left: as wide as its words need.
fn width_of(left: u32, words: &[Shape]) -> u32
    ensures { result ≤ WIDEST }
{
    let needed = words_reach(words).saturating_add(MARGIN);
    let usual = left.saturating_add(SENTENCES);
    usual.max(needed).min(WIDEST)
}

/// The drawing of a layout of a run. Through the rows of these marks, ribbons go.
fn draw(
    alloc: Global,
    title: &[u8],
    unit: &[u8],
    sites: &[Text],
    cast: &Cast,
    followed: &Followed,
    layout: &Layout,
    ribbons: &[Mark],
) -> Result<Drawing, Memory>
    requires { length layout.now.marks ≤ MOST_STEPS }
    ensures drawn { IfOk result (IsDrawn layout.now) }
    ensures width { IfOk result (λ drawing. drawing.width ≤ WIDEST) }
{
    let steps = followed.steps.as_slice();
    let pale = followed.pale.as_slice();
    let marks = layout.marks.as_slice();
    let frame = frame_of(alloc, sites.len(), layout.columns.as_slice())?;
    let middles = frame.middles.as_slice();
    let left = frame.right.saturating_add(NUMBERS);
    let mut words = sentences_of(alloc, cast, sites, followed, marks, left)?;
    add_title(alloc, &mut words, title, unit, steps.len())?;
    let width = width_of(left, words.as_slice());
    let ground = ground_of(alloc, cast, sites, layout, &frame, width, ribbons)?;
    let arrows = layout.arrows.as_slice();
    let flights = flights_of(alloc, cast, middles, steps, pale, marks, arrows)?;
    let sent = layout.posts.as_slice();
    let posts = posts_of(alloc, cast, middles, steps, pale, marks, sent)?;
    let spots = spots_of(alloc, cast, middles, steps, pale, marks)?;
    Ok(Drawing {
        width,
        height: height_of(layout),
        ground,
        flights,
        posts,
        spots,
        words,
    })
}

/// The picture of a run of a program with these sites, as SVG, under a title. `unit` stands behind the number of its events, and
/// `binders` says how the source names the agents that it makes.
pub fn picture_text(
    alloc: Global,
    title: &[u8],
    unit: &[u8],
    sites: &[Text],
    binders: &[Binder],
    followed: &Followed,
) -> Result<Text, Memory>
    requires { length followed.now.steps ≤ MOST_STEPS }
    ensures { IfOk result (IsPicture followed.now.steps) }
{
    let steps = followed.steps.as_slice();
    let count = u32::try_from(sites.len()).unwrap_or(0);
    let cast = cast_of(alloc, count, followed.makers.as_slice(), steps, binders)?;
    let layout = lay_out(alloc, steps)?;
    let drawing = draw(alloc, title, unit, sites, &cast, followed, &layout, &[])?;
    svg_text(alloc, STYLE, &drawing)
}

/// The picture of what the source says beside that of what the sites do.
pub fn both_text(
    alloc: Global,
    title: &[u8],
    sites: &[Text],
    binders: &[Binder],
    high: &Followed,
    low: &Followed,
    twins: &[u32],
) -> Result<Text, Memory>
    requires high { length high.now.steps ≤ MOST_STEPS }
    requires low { length low.now.steps ≤ MOST_STEPS }
    ensures { IfOk result (IsPictureOfBoth high.now.steps low.now.steps twins.now) }
{
    let count = u32::try_from(sites.len()).unwrap_or(0);
    let lows = low.steps.as_slice();
    let highs = high.steps.as_slice();
    let below = lay_out(alloc, lows)?;
    let above = lay_beside(alloc, highs, &below, twins)?;
    let ribbons = above.marks.as_slice();
    let cast = cast_of(alloc, count, high.makers.as_slice(), highs, binders)?;
    let first = draw(alloc, title, HIGH_UNIT, sites, &cast, high, &above, ribbons)?;
    let cast = cast_of(alloc, count, low.makers.as_slice(), lows, binders)?;
    let second = draw(alloc, b"", LOW_UNIT, sites, &cast, low, &below, ribbons)?;
    both_svg(alloc, STYLE, &first, &second)
}
