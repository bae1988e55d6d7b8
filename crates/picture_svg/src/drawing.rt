//! The marks of the events and the arrows between them, as shapes.

ghost use Rattle.std.specs.Prelude.{◌≡◌, ◌<◌, ◌^◌, length, map, slice_get, slice_index_or, IfOk};
ghost use Rattle.picture_svg.specs.Placed as spec;

use super::cast::Cast;
use super::heads::head_of;
use super::shapes::{Flight, Hue, Look, Point, Spot};
use np_syntax::{Kind, List, Memory, Role};
use run_pictures::{Arrow, Mark, Post, Step};
use std::alloc::Global;

/// Where a mark stands, where these are the middles of the columns.
fn point_of(middles: &[u32], mark: Mark) -> Point
    ensures { result ≡ spec.point_of middles.now mark }
{
    let x = match middles.get(mark.column as usize) {
        Some(middle) => *middle,
        None => 0,
    };
    Point { x, y: mark.y }
}

/// Where the mark of an event stands.
pub(crate) fn point_at(middles: &[u32], marks: &[Mark], event: u32) -> Point
    ensures { result ≡ spec.point_at middles.now (slice_get marks.now event) }
{
    match marks.get(event as usize).copied() {
        Some(mark) => point_of(middles, mark),
        None => Point { x: 0, y: 0 },
    }
}

/// How the mark of a step of the source looks.
fn own_look(step: &Step) -> Look {
    match step.event.kind {
        Kind::New => Look::Ring,
        Kind::Comm | Kind::Rep => Look::Take,
        Kind::Print => Look::Print,
        Kind::Land if !step.here => Look::Lost,
        _ => Look::Dot,
    }
}

fn look_of(step: &Step) -> Look {
    match (step.event.tag.role, step.event.kind) {
        (Role::Plain | Role::Post, _) => own_look(step),
        (Role::Infra, Kind::Send) => Look::Sent,
        (Role::Infra, _) => Look::Tick,
    }
}

/// Whether the event of a number is pale.
pub(crate) fn is_pale(pale: &[bool], event: u32) -> bool {
    pale.get(event as usize).copied().unwrap_or(false)
}

/// The mark of the event of a number.
fn spot_of(
    cast: &Cast,
    middles: &[u32],
    steps: &[Step],
    pale: &[bool],
    event: u32,
    mark: Mark,
) -> Spot
    ensures event { result.event ≡ event }
    ensures at { result.at ≡ spec.point_of middles.now mark }
{
    let at = point_of(middles, mark);
    let pale = is_pale(pale, event);
    let (look, hue) = match steps.get(event as usize) {
        Some(step) => (look_of(step), cast.hue(step.agent)),
        None => (Look::Tick, Hue::Plain),
    };
    Spot {
        event,
        at,
        look,
        hue,
        pale,
    }
}

/// The marks of all events, in their order.
pub(crate) fn spots_of(
    alloc: Global,
    cast: &Cast,
    middles: &[u32],
    steps: &[Step],
    pale: &[bool],
    marks: &[Mark],
) -> Result<List<Spot>, Memory>
    requires { length marks.now < 2 ^ 32 }
    ensures { IfOk result (λ spots. map spec.standing spots ≡ spec.places middles.now 0 marks.now) }
{
    let mut spots = List::new(alloc);
    let mut event = 0u32;
    for mark in marks {
        spots.add(spot_of(cast, middles, steps, pale, event, *mark))?;
        event += 1;
    }
    Ok(spots)
}

/// How what begins with a step looks on its way.
fn way_look(step: &Step) -> Look {
    match (step.event.kind, step.event.tag.role) {
        (Kind::Depart, _) => Look::Path,
        (_, Role::Infra) => Look::Net,
        (_, Role::Plain | Role::Post) => Look::Message,
    }
}

/// What an arrow joins, how it looks and whose colour it has.
fn flight_of(
    cast: &Cast,
    middles: &[u32],
    steps: &[Step],
    pale: &[bool],
    marks: &[Mark],
    arrow: Arrow,
) -> Flight
    ensures { spec.joining result ≡ spec.joined middles.now marks.now arrow }
{
    let Arrow { from, to } = arrow;
    let start = point_at(middles, marks, from);
    let end = point_at(middles, marks, to);
    let (look, hue) = match steps.get(from as usize) {
        Some(step) => (way_look(step), cast.hue(step.agent)),
        None => (Look::Net, Hue::Plain),
    };
    let head = match look {
        Look::Path => None,
        _ => head_of(start, end),
    };
    let pale = is_pale(pale, from) || is_pale(pale, to);
    Flight {
        from,
        to,
        start,
        end,
        head,
        look,
        hue,
        pale,
    }
}

/// The arrows, each from the mark of its first event to that of its second.
pub(crate) fn flights_of(
    alloc: Global,
    cast: &Cast,
    middles: &[u32],
    steps: &[Step],
    pale: &[bool],
    marks: &[Mark],
    arrows: &[Arrow],
) -> Result<List<Flight>, Memory>
    ensures { IfOk result (λ flights. map spec.joining flights ≡ map (spec.joined middles.now marks.now) arrows.now) }
{
    let mut flights = List::new(alloc);
    for arrow in arrows {
        flights.add(flight_of(cast, middles, steps, pale, marks, *arrow))?;
    }
    Ok(flights)
}

/// The middle of a column.
fn middle_of(middles: &[u32], column: u32) -> u32
    ensures { result ≡ slice_index_or middles.now column 0 }
{
    match middles.get(column as usize) {
        Some(middle) => *middle,
        None => 0,
    }
}

/// The arrow of a post: from its mark, on the same row, to the column of the agent to which it goes.
fn post_of(
    cast: &Cast,
    middles: &[u32],
    steps: &[Step],
    pale: &[bool],
    marks: &[Mark],
    post: Post,
) -> Flight
    ensures { spec.joining result ≡ spec.posted middles.now marks.now post }
{
    let Post { event, column } = post;
    let start = point_at(middles, marks, event);
    let end = Point {
        x: middle_of(middles, column),
        y: start.y,
    };
    let hue = match steps.get(event as usize) {
        Some(step) => cast.hue(step.agent),
        None => Hue::Plain,
    };
    Flight {
        from: event,
        to: event,
        start,
        end,
        head: head_of(start, end),
        look: Look::Message,
        hue,
        pale: is_pale(pale, event),
    }
}

/// The arrows of posts.
pub(crate) fn posts_of(
    alloc: Global,
    cast: &Cast,
    middles: &[u32],
    steps: &[Step],
    pale: &[bool],
    marks: &[Mark],
    posts: &[Post],
) -> Result<List<Flight>, Memory>
    ensures { IfOk result (λ flights. map spec.joining flights ≡ map (spec.posted middles.now marks.now) posts.now) }
{
    let mut flights = List::new(alloc);
    for post in posts {
        flights.add(post_of(cast, middles, steps, pale, marks, *post))?;
    }
    Ok(flights)
}
