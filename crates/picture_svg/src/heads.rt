//! The heads of arrows.

use super::shapes::{Head, Point};

/// How long a head is, half as wide as it is, and how far in front of the end of its arrow it stands.
const LONG: u32 = 9;

const HALF: u32 = 4;

const SHORT: u32 = 5;

/// How far an arrow goes across and down, and about how long it is.
#[derive(Clone, Copy)]
struct Way {
    across: u32,
    down: u32,
    length: u32,
}

/// About as long as the way is: the longer of its two parts, and three eighths of the other.
fn way_of(start: Point, end: Point) -> Way {
    let across = start.x.abs_diff(end.x);
    let down = start.y.abs_diff(end.y);
    let less = across.min(down) / 8;
    let length = across.max(down).saturating_add(less.saturating_mul(3));
    Way {
        across,
        down,
        length,
    }
}

/// The part of a side of a way that belongs to so much of its length.
fn part(by: u32, side: u32, length: u32) -> u32 {
    by.saturating_mul(side) / length.max(1)
}

/// So much nearer to another number.
fn toward(from: u32, to: u32, by: u32) -> u32 {
    if to < from {
        from.saturating_sub(by)
    } else {
        from.saturating_add(by)
    }
}

/// The point so far back from the end of an arrow.
fn back(start: Point, end: Point, way: Way, by: u32) -> Point {
    Point {
        x: toward(end.x, start.x, part(by, way.across, way.length)),
        y: toward(end.y, start.y, part(by, way.down, way.length)),
    }
}

/// The head of an arrow, unless that is too short to have one.
pub(crate) fn head_of(start: Point, end: Point) -> Option<Head> {
    let way = way_of(start, end);
    if way.length < LONG + SHORT {
        return None;
    }
    let tip = back(start, end, way, SHORT);
    let base = back(start, end, way, SHORT + LONG);
    let across = part(HALF, way.down, way.length);
    let down = part(HALF, way.across, way.length);
    let (upper, lower) = if (start.x < end.x) == (start.y < end.y) {
        (base.x.saturating_add(across), base.x.saturating_sub(across))
    } else {
        (base.x.saturating_sub(across), base.x.saturating_add(across))
    };
    Some(Head {
        tip,
        left: Point {
            x: upper,
            y: base.y.saturating_sub(down),
        },
        right: Point {
            x: lower,
            y: base.y.saturating_add(down),
        },
    })
}
