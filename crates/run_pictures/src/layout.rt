//! A layout, as data.

ghost use Rattle.std.specs.Prelude.{◌≤◌, length, IfOk};
ghost use Rattle.run_pictures.specs.Layouts.{IsBeside, IsLayout};

use super::arrows::arrows_of;
use super::columns::Columns;
use super::marks::{MOST_STEPS, Marked, marks_beside, marks_of};
use super::posts::posts_of;
use super::stays::{Stood, stays_of};
use super::step::Step;
use np_syntax::{List, Memory, Name};
use std::alloc::Global;

/// The column of an agent at a site.
#[derive(Clone, Copy, PartialEq, Eq)]
pub struct Column {
    pub site: u32,
    pub agent: Name,
}

/// Where an event stands: its column, by its number, and how far down.
#[derive(Clone, Copy)]
pub struct Mark {
    pub column: u32,
    pub y: u32,
}

/// From a Send to its Land, or from a Depart to its Arrive, by the numbers of these events.
#[derive(Clone, Copy)]
pub struct Arrow {
    pub from: u32,
    pub to: u32,
}

/// An agent in a column, from here to there.
#[derive(Clone, Copy)]
pub struct Stay {
    pub column: u32,
    pub from: u32,
    pub to: u32,
}

/// An agent that is made by an event, and the column in which it begins.
#[derive(Clone, Copy)]
pub struct Birth {
    pub event: u32,
    pub column: u32,
}

/// From a Post to the column in which the agent stood last to which it goes.
#[derive(Clone, Copy)]
pub struct Post {
    pub event: u32,
    pub column: u32,
}

/// The marks of the events in their order, with all that stands around them, and where the last row ends.
#[derive(Drop)]
pub struct Layout {
    pub columns: List<Column>,
    pub marks: List<Mark>,
    pub arrows: List<Arrow>,
    pub stays: List<Stay>,
    pub births: List<Birth>,
    pub idles: List<Stay>,
    pub posts: List<Post>,
    pub end: u32,
}

/// Lays out the steps of a run.
pub fn lay_out(alloc: Global, steps: &[Step]) -> Result<Layout, Memory>
    requires { length steps.now ≤ MOST_STEPS }
    ensures { IfOk result (IsLayout steps.now) }
{
    let mut columns = Columns::new(alloc);
    let Marked { marks, end } = marks_of(alloc, &mut columns, steps)?;
    let stood = stays_of(alloc, &mut columns, steps, marks.as_slice(), end)?;
    let arrows = arrows_of(alloc, steps)?;
    let made = columns.into_list();
    let standing = made.as_slice();
    let posts = posts_of(
        alloc,
        standing,
        steps,
        marks.as_slice(),
        stood.births.as_slice(),
    )?;
    let Stood {
        stays,
        births,
        idles,
    } = stood;
    Ok(Layout {
        columns: made,
        marks,
        arrows,
        stays,
        births,
        idles,
        posts,
        end,
    })
}

/// Lays out the steps of a run beside another layout, where each stands as far down as its twin, by these numbers.
pub fn lay_beside(
    alloc: Global,
    steps: &[Step],
    below: &Layout,
    twins: &[u32],
) -> Result<Layout, Memory>
    requires { length steps.now ≤ MOST_STEPS }
    ensures { IfOk result (IsBeside steps.now below.now.marks twins.now) }
{
    let mut columns = Columns::new(alloc);
    let marks = marks_beside(alloc, &mut columns, steps, below.marks.as_slice(), twins)?;
    let stood = stays_of(alloc, &mut columns, steps, marks.as_slice(), below.end)?;
    let arrows = arrows_of(alloc, steps)?;
    let made = columns.into_list();
    let standing = made.as_slice();
    let posts = posts_of(
        alloc,
        standing,
        steps,
        marks.as_slice(),
        stood.births.as_slice(),
    )?;
    let Stood {
        stays,
        births,
        idles,
    } = stood;
    Ok(Layout {
        columns: made,
        marks,
        arrows,
        stays,
        births,
        idles,
        posts,
        end: below.end,
    })
}
