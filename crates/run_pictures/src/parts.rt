//! Parts of a run: a stretch of it, or what has to do with some agents.

ghost use Rattle.std.specs.Prelude.{◌≡◌, ◌++◌, ◌≤◌, ◌<◌, ◌^◌, length, IfOk, OnOk};
ghost use Rattle.run_pictures.specs.Parts as spec;
ghost use Rattle.run_pictures.specs.declared.marks.TheConstants.{MOST_STEPS};

use super::marks::MOST_STEPS;
use super::step::{Followed, Step};
use np_syntax::{Event, Kind, List, Made, Memory, Name, Text};
use np_tables::Names;
use std::alloc::Global;

/// The steps from a number on and before another, counted from 0; of them those in which one of some agents acts or is named,
/// where these are given.
#[derive(Drop)]
pub struct Part {
    pub first: u32,
    pub end: u32,
    pub of: Option<Names>,
}

fn is_among(names: &Names, name: Option<Name>) -> bool
    ensures { result ≡ spec.is_among names.now.members name }
{
    match name {
        Some(name) => names.has(name),
        None => false,
    }
}

/// The agent that is made.
fn child_of(made: Made) -> Option<Name>
    ensures { result ≡ spec.child_of made }
{
    match made {
        Made::Two(agent, _) => Some(agent),
        _ => None,
    }
}

/// Whether one of the agents acts in a step, or the step names it.
fn concerns(names: &Names, step: &Step) -> bool
    ensures { result ≡ spec.concerns names.now.members step.now }
{
    names.has(step.agent)
        || is_among(names, step.target)
        || is_among(names, child_of(step.event.made))
}

fn is_of(of: &Option<Names>, step: &Step) -> bool
    ensures { result ≡ spec.is_of of.now step.now }
{
    match of {
        Some(names) => concerns(names, step),
        None => true,
    }
}

/// Whether the step of a number is in a part.
fn is_shown(part: &Part, place: u32, step: &Step) -> bool
    ensures { result ≡ spec.is_shown part.now place step.now }
{
    part.first <= place && place < part.end && is_of(&part.of, step)
}

fn add_if(alloc: Global, made: &mut List<Step>, wanted: bool, step: &Step) -> Result<(), Memory>
    ensures { OnOk result (made.new ≡ made.old ++ spec.one_if wanted step.now) }
{
    if wanted {
        made.add(step.copy(alloc)?)
    } else {
        Ok(())
    }
}

/// The steps in a part.
fn steps_in(alloc: Global, all: &[Step], part: &Part) -> Result<List<Step>, Memory>
    requires { length all.now ≤ MOST_STEPS }
    ensures { IfOk result (λ made. made ≡ spec.part_of part.now all.now) }
{
    let mut made = List::new(alloc);
    let mut place = 0u32;
    for step in all {
        add_if(alloc, &mut made, is_shown(part, place, step), step)?;
        place += 1;
    }
    Ok(made)
}

/// The numbers of the steps in a part.
fn numbers_in(alloc: Global, all: &[Step], part: &Part) -> Result<List<u32>, Memory> {
    let mut numbers = List::new(alloc);
    let mut place = 0u32;
    for step in all {
        if is_shown(part, place, step) {
            numbers.add(place)?;
        }
        place = place.saturating_add(1);
    }
    Ok(numbers)
}

/// Which steps of a part are pale, where some of the run are.
fn pale_in(alloc: Global, pale: &[bool], numbers: &[u32]) -> Result<List<bool>, Memory> {
    let mut made = List::new(alloc);
    for number in numbers {
        if let Some(pale) = pale.get(*number as usize) {
            made.add(*pale)?;
        }
    }
    Ok(made)
}

/// The texts that the steps in a part print.
fn printed_in(alloc: Global, run: &Followed, part: &Part) -> Result<List<Text>, Memory> {
    let mut made = List::new(alloc);
    let mut place = 0u32;
    let mut prints = 0usize;
    for step in run.steps.as_slice() {
        if matches!(step.event.kind, Kind::Print) {
            if is_shown(part, place, step) {
                if let Some(text) = run.printed.as_slice().get(prints) {
                    made.add(text.copy(alloc)?)?;
                }
            }
            prints = prints.saturating_add(1);
        }
        place = place.saturating_add(1);
    }
    Ok(made)
}

/// The events that make agents or channels.
fn makers_of(alloc: Global, all: &[Step]) -> Result<List<Event>, Memory> {
    let mut makers = List::new(alloc);
    for step in all {
        if matches!(step.event.kind, Kind::Agent | Kind::New) {
            makers.add(step.event)?;
        }
    }
    Ok(makers)
}

/// A part of a run.
pub fn part_of(alloc: Global, run: &Followed, part: &Part) -> Result<Followed, Memory>
    requires { length run.now.steps ≤ MOST_STEPS }
    ensures { IfOk result (λ made. made.steps ≡ spec.part_of part.now run.now.steps) }
{
    let all = run.steps.as_slice();
    let numbers = numbers_in(alloc, all, part)?;
    let printed = printed_in(alloc, run, part)?;
    let makers = makers_of(alloc, all)?;
    let pale = pale_in(alloc, run.pale.as_slice(), numbers.as_slice())?;
    let steps = steps_in(alloc, all, part)?;
    Ok(Followed {
        steps,
        printed,
        numbers,
        makers,
        pale,
    })
}
