//! Arrows, from what leaves to what comes.

ghost use Rattle.std.specs.Prelude.{◌≡◌, ◌++◌, ◌<◌, ◌^◌, length, IsTrue, IfOk, IfSome, OnOk};
ghost use Rattle.std.specs.Option.{option_to_list};
ghost use Rattle.std.specs.List.{AllByRecursion};
ghost use Rattle.run_pictures.specs.Arrows.{Carries, IsArrow, Moves};

use super::layout::Arrow;
use super::step::Step;
use np_syntax::{Kind, List, Memory};
use np_tables::Table;
use std::alloc::Global;

/// The last Send of each mark, and the last Depart of each agent, by the numbers of the events.
#[derive(Drop)]
struct Leaving {
    sends: Table<u32>,
    departs: Table<u32>,
}

impl Leaving {
    fn new(alloc: Global) -> Leaving {
        Leaving {
            sends: Table::new(alloc),
            departs: Table::new(alloc),
        }
    }

    /// Where that began which ends with a step, if something does.
    fn start_of(&self, step: &Step) -> Option<u32> {
        match step.event.kind {
            Kind::Land => self.sends.get(step.event.actor).copied(),
            Kind::Arrive => self.departs.get(step.agent).copied(),
            _ => None,
        }
    }

    /// Notes what begins with the step of a number.
    fn note(&mut self, place: u32, step: &Step) -> Result<(), Memory> {
        match step.event.kind {
            Kind::Send => self.sends.insert(step.event.actor, place),
            Kind::Depart => self.departs.insert(step.agent, place),
            _ => Ok(()),
        }
    }
}

/// Whether a packet that is sent by the one step lands by the other.
fn carries(from: &Step, to: &Step) -> bool
    ensures { IsTrue result → Carries from.now to.now }
{
    matches!(from.event.kind, Kind::Send)
        && matches!(to.event.kind, Kind::Land)
        && from.event.actor == to.event.actor
}

/// Whether an agent leaves by the one step and arrives by the other.
fn moves(from: &Step, to: &Step) -> bool
    ensures { IsTrue result → Moves from.now to.now }
{
    matches!(from.event.kind, Kind::Depart)
        && matches!(to.event.kind, Kind::Arrive)
        && from.agent == to.agent
}

/// The arrow from one step to a later one, if they belong together.
fn arrow_between(steps: &[Step], from: u32, to: u32) -> Option<Arrow>
    ensures { IfSome result (IsArrow steps.now) }
{
    if to <= from {
        return None;
    }
    let start = steps.get(from as usize)?;
    let end = steps.get(to as usize)?;
    if carries(start, end) || moves(start, end) {
        Some(Arrow { from, to })
    } else {
        None
    }
}

/// The arrow that ends with a step, if one does.
fn arrow_to(steps: &[Step], leaving: &Leaving, to: u32, step: &Step) -> Option<Arrow>
    ensures { IfSome result (IsArrow steps.now) }
{
    let from = leaving.start_of(step)?;
    arrow_between(steps, from, to)
}

fn add_arrow(arrows: &mut List<Arrow>, arrow: Option<Arrow>) -> Result<(), Memory>
    ensures { OnOk result (arrows.new ≡ arrows.old ++ option_to_list arrow) }
{
    match arrow {
        Some(arrow) => arrows.add(arrow),
        None => Ok(()),
    }
}

/// The arrows of a run.
pub(super) fn arrows_of(alloc: Global, steps: &[Step]) -> Result<List<Arrow>, Memory>
    requires { length steps.now < 2 ^ 32 }
    ensures { IfOk result (λ arrows. AllByRecursion (IsArrow steps.now) arrows) }
{
    let mut leaving = Leaving::new(alloc);
    let mut arrows = List::new(alloc);
    for place in 0..steps.len() {
        let step = &steps[place];
        let arrow = arrow_to(steps, &leaving, place as u32, step);
        add_arrow(&mut arrows, arrow)?;
        leaving.note(place as u32, step)?;
    }
    Ok(arrows)
}
