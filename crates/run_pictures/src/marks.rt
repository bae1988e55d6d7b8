//! Rows, and the marks of the events in them.

ghost use Rattle.std.specs.Prelude.{◌≡◌, ◌≤◌, ◌+◌, ◌*◌, length, map, slice_get, IfOk, OnOk};
ghost use Rattle.run_pictures.specs.Columns.{Extends, StandFor};
ghost use Rattle.run_pictures.specs.Rows as spec;

use super::columns::Columns;
use super::layout::{Column, Mark};
use super::step::Step;
use np_syntax::{Kind, List, Memory, Role};
use std::alloc::Global;

/// How many steps a picture may have: a history has no more.
pub const MOST_STEPS: usize = 67_108_864;

/// Where the first row begins.
pub const TOP: u32 = 118;

/// How high the row of an event of the source is, of a packet that the infrastructure sends, and of any other event.
const OWN_ROW: u32 = 30;

const SENT_ROW: u32 = 22;

const QUIET_ROW: u32 = 4;

/// Marks in the order of the events, and where the last row ends.
#[derive(Drop)]
pub(super) struct Marked {
    pub marks: List<Mark>,
    pub end: u32,
}

/// Whether an event is told by a sentence: one of the source is, and of the infrastructure what it sends.
pub fn is_told(step: &Step) -> bool
    ensures { result ≡ spec.is_told step.now }
{
    match step.event.tag.role {
        Role::Plain | Role::Post => true,
        Role::Infra => matches!(step.event.kind, Kind::Send),
    }
}

fn row_height(step: &Step) -> u32
    ensures is { result ≡ spec.row_height step.now }
    ensures most { result ≤ OWN_ROW }
{
    if !is_told(step) {
        return QUIET_ROW;
    }
    match step.event.tag.role {
        Role::Infra => SENT_ROW,
        Role::Plain | Role::Post => OWN_ROW,
    }
}

/// A mark for each step, in the middle of its row, in the column of its site and of who acts.
pub(super) fn marks_of(
    alloc: Global,
    columns: &mut Columns,
    steps: &[Step],
) -> Result<Marked, Memory>
    requires { length steps.now ≤ MOST_STEPS }
    ensures stand { IfOk result (λ made. StandFor columns.new.list made.marks steps.now (length steps.now)) }
    ensures rows { IfOk result (λ made. map (λ mark. mark.y) made.marks ≡ spec.middles TOP steps.now) }
{
    let mut marks = List::new(alloc);
    let mut end = TOP;
    for step in steps {
        let height = row_height(step);
        let column = columns.at(Column {
            site: step.event.site,
            agent: step.agent,
        })?;
        marks.add(Mark {
            column,
            y: end + height / 2,
        })?;
        end += height;
    }
    Ok(Marked { marks, end })
}

/// How far down the twin of a step stands, if there is one.
fn row_by(below: &[Mark], twin: Option<u32>) -> u32
    ensures { result ≡ spec.row_by below.now twin }
{
    match twin {
        Some(twin) => match below.get(twin as usize) {
            Some(mark) => mark.y,
            None => 0,
        },
        None => 0,
    }
}

/// The twin of the step of a number, if there is one.
fn twin_at(twins: &[u32], place: usize) -> Option<u32>
    ensures { result ≡ slice_get twins.now place }
{
    twins.get(place).copied()
}

/// A mark for each step, as far down as its twin among other marks, in the column of its site and of who acts.
pub(super) fn marks_beside(
    alloc: Global,
    columns: &mut Columns,
    steps: &[Step],
    below: &[Mark],
    twins: &[u32],
) -> Result<List<Mark>, Memory>
    ensures stand { IfOk result (λ marks. StandFor columns.new.list marks steps.now (length steps.now)) }
    ensures rows { IfOk result (λ marks. map (λ mark. mark.y) marks ≡ spec.rows_by below.now twins.now (length steps.now)) }
{
    let mut marks = List::new(alloc);
    let mut place = 0usize;
    for step in steps {
        let site = step.event.site;
        let agent = step.agent;
        let column = columns.at(Column { site, agent })?;
        let y = row_by(below, twin_at(twins, place));
        marks.add(Mark { column, y })?;
        place += 1;
    }
    Ok(marks)
}
