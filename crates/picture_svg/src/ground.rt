//! What stands below the marks: the bands of the sites with their names, the paths of the agents, and the end.

use super::cast::Cast;
use super::drawing::point_at;
use super::frame::{Band, Frame};
use super::shapes::{Form, Hue, Look, Point, Shape};
use np_syntax::{List, Memory, Text};
use run_pictures::{Birth, Column, Layout, Mark, Stay};
use std::alloc::Global;

/// How high a ribbon is.
const RIBBON: u32 = 24;

/// Where the bands begin, how far down the names of the sites stand, and how far the bands reach behind the last row.
const HEAD: u32 = 70;

const NAME: u32 = 16;

const FOOT: u32 = 16;

/// The measures of the pill that names an agent, and how wide a letter is in it.
const PILL: u32 = 19;

const LETTER: u32 = 7;

pub(crate) fn add_line(
    shapes: &mut List<Shape>,
    look: Look,
    hue: Hue,
    from: Point,
    to: Point,
) -> Result<(), Memory> {
    shapes.add(Shape {
        look,
        hue,
        pale: false,
        form: Form::Line { from, to },
    })
}

pub(crate) fn add_words(
    alloc: Global,
    shapes: &mut List<Shape>,
    look: Look,
    hue: Hue,
    at: Point,
    words: &[u8],
) -> Result<(), Memory> {
    let text = List::from_slice(alloc, words)?;
    shapes.add(Shape {
        look,
        hue,
        pale: false,
        form: Form::Words { at, text },
    })
}

fn add_plate(
    shapes: &mut List<Shape>,
    look: Look,
    hue: Hue,
    at: Point,
    width: u32,
    height: u32,
    corner: u32,
) -> Result<(), Memory> {
    shapes.add(Shape {
        look,
        hue,
        pale: false,
        form: Form::Plate {
            at,
            width,
            height,
            corner,
        },
    })
}

/// How far the bands reach down.
fn foot_of(layout: &Layout) -> u32 {
    layout.end.saturating_add(FOOT)
}

/// How large the picture is.
pub(crate) fn height_of(layout: &Layout) -> u32 {
    foot_of(layout).saturating_add(FOOT + FOOT)
}

/// The band of a site, with its name.
fn add_band(
    alloc: Global,
    shapes: &mut List<Shape>,
    foot: u32,
    band: Band,
    name: &[u8],
) -> Result<(), Memory> {
    let at = Point {
        x: band.left,
        y: HEAD,
    };
    let height = foot.saturating_sub(HEAD);
    add_plate(shapes, Look::Band, Hue::Plain, at, band.width, height, 8)?;
    let middle = Point {
        x: band.left.saturating_add(band.width / 2),
        y: HEAD + NAME,
    };
    add_words(alloc, shapes, Look::Site, Hue::Plain, middle, name)
}

fn add_bands(
    alloc: Global,
    shapes: &mut List<Shape>,
    foot: u32,
    bands: &[Band],
    sites: &[Text],
) -> Result<(), Memory> {
    for (band, name) in bands.iter().zip(sites.iter()) {
        add_band(alloc, shapes, foot, *band, name.as_slice())?;
    }
    Ok(())
}

/// The path of an agent where it stays.
fn add_stay(
    shapes: &mut List<Shape>,
    look: Look,
    cast: &Cast,
    columns: &[Column],
    middles: &[u32],
    stay: &Stay,
) -> Result<(), Memory> {
    let place = stay.column as usize;
    let (Some(column), Some(x)) = (columns.get(place), middles.get(place)) else {
        return Ok(());
    };
    let from = Point {
        x: *x,
        y: stay.from.saturating_sub(PILL),
    };
    let to = Point { x: *x, y: stay.to };
    add_line(shapes, look, cast.hue(column.agent), from, to)
}

/// From the mark of the event that makes an agent to the column in which that begins.
fn add_birth(
    shapes: &mut List<Shape>,
    cast: &Cast,
    layout: &Layout,
    middles: &[u32],
    birth: &Birth,
) -> Result<(), Memory> {
    let place = birth.column as usize;
    let columns = layout.columns.as_slice();
    let (Some(column), Some(x)) = (columns.get(place), middles.get(place)) else {
        return Ok(());
    };
    let from = point_at(middles, layout.marks.as_slice(), birth.event);
    let to = Point { x: *x, y: from.y };
    add_line(shapes, Look::Birth, cast.hue(column.agent), from, to)
}

/// The pill that names an agent where it comes.
fn add_pill(
    alloc: Global,
    shapes: &mut List<Shape>,
    cast: &Cast,
    columns: &[Column],
    middles: &[u32],
    stay: &Stay,
) -> Result<(), Memory> {
    let place = stay.column as usize;
    let (Some(column), Some(x)) = (columns.get(place), middles.get(place)) else {
        return Ok(());
    };
    let name = cast.name(column.agent);
    let hue = cast.hue(column.agent);
    let letters = u32::try_from(name.len()).unwrap_or(0).min(14);
    let width = letters.saturating_mul(LETTER).saturating_add(PILL - 5);
    let top = stay.from.saturating_sub(PILL + PILL / 2);
    let left = Point {
        x: x.saturating_sub(width / 2),
        y: top,
    };
    add_plate(shapes, Look::Pill, hue, left, width, PILL, PILL / 2)?;
    let middle = Point {
        x: *x,
        y: top.saturating_add(14),
    };
    add_words(alloc, shapes, Look::PillName, hue, middle, name)
}

/// The bars at the end of each band.
fn add_ends(shapes: &mut List<Shape>, foot: u32, bands: &[Band]) -> Result<(), Memory> {
    for band in bands {
        let from = Point {
            x: band.left,
            y: foot,
        };
        let to = Point {
            x: band.left.saturating_add(band.width),
            y: foot,
        };
        add_line(shapes, Look::End, Hue::Plain, from, to)?;
    }
    Ok(())
}

/// The paths and the pills of all agents.
fn add_stays(
    alloc: Global,
    shapes: &mut List<Shape>,
    cast: &Cast,
    layout: &Layout,
    middles: &[u32],
) -> Result<(), Memory> {
    let columns = layout.columns.as_slice();
    for idle in layout.idles.as_slice() {
        add_stay(shapes, Look::Idle, cast, columns, middles, idle)?;
    }
    for stay in layout.stays.as_slice() {
        add_stay(shapes, Look::Path, cast, columns, middles, stay)?;
    }
    for birth in layout.births.as_slice() {
        add_birth(shapes, cast, layout, middles, birth)?;
    }
    for stay in layout.stays.as_slice() {
        add_pill(alloc, shapes, cast, columns, middles, stay)?;
    }
    Ok(())
}

/// The ribbons that go through rows of both levels, from the left to the right of a picture.
fn add_ribbons(shapes: &mut List<Shape>, width: u32, rows: &[Mark]) -> Result<(), Memory> {
    for row in rows {
        let at = Point {
            x: 0,
            y: row.y.saturating_sub(RIBBON / 2),
        };
        add_plate(shapes, Look::Ribbon, Hue::Plain, at, width, RIBBON, 0)?;
    }
    Ok(())
}

/// All that stands below the marks. Through the rows of these marks, ribbons go.
pub(crate) fn ground_of(
    alloc: Global,
    cast: &Cast,
    sites: &[Text],
    layout: &Layout,
    frame: &Frame,
    width: u32,
    ribbons: &[Mark],
) -> Result<List<Shape>, Memory> {
    let mut shapes = List::new(alloc);
    let corner = Point { x: 0, y: 0 };
    let foot = foot_of(layout);
    add_plate(
        &mut shapes,
        Look::Paper,
        Hue::Plain,
        corner,
        width,
        height_of(layout),
        0,
    )?;
    add_bands(alloc, &mut shapes, foot, frame.bands.as_slice(), sites)?;
    add_ribbons(&mut shapes, width, ribbons)?;
    add_ends(&mut shapes, foot, frame.bands.as_slice())?;
    add_stays(alloc, &mut shapes, cast, layout, frame.middles.as_slice())?;
    Ok(shapes)
}
