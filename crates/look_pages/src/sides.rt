//! A level of a run: its events as they are followed, and what caused each.

ghost use Rattle.std.specs.Prelude.{◌≡◌, ◌<◌, ◌≤◌, ◌^◌, length, map, take, IfOk};
ghost use Rattle.np_calculus.specs.Runs.{RunsWell};
ghost use Rattle.np_calculus.specs.Starts.{start_low};
ghost use Rattle.np_on_sites.specs.ByInfrastructure.{lift_by};

use look_sources::{lifted_by, of_replay};
use np_check::Checked;
use np_safety::law_runs_well;
use np_syntax::{Event, List, LowProgram, Memory, copy_texts};
use np_verdict::Refusal;
use np_words::Infrastructure;
use run_pictures::{Followed, MOST_STEPS, Step};
use run_steps::{follow, follow_high};
use run_views::{Causes, causes_high, causes_low};
use std::alloc::Global;

/// A level of a run. `twins` has for each event the number of that of the other level, 0 for none.
#[derive(Drop)]
pub(super) struct Side {
    pub followed: Followed,
    pub causes: List<Causes>,
    pub twins: List<u32>,
}

/// A level with its causes, if they were found.
fn with_causes(
    followed: Followed,
    causes: Result<List<Causes>, Memory>,
    twins: List<u32>,
) -> Result<Side, Refusal>
    ensures { IfOk result (λ side. side.followed ≡ followed) }
{
    match causes {
        Ok(causes) => Ok(Side {
            followed,
            causes,
            twins,
        }),
        Err(Memory) => Err(Refusal::Memory),
    }
}

/// What the sites do in events of a low program.
pub(super) fn low_side(alloc: Global, low: &LowProgram, events: &[Event]) -> Result<Side, Refusal>
    requires { RunsWell (start_low low.now) low.now.at }
    ensures { IfOk result (λ side. map (λ step. step.event) side.followed.steps ≡ events.now) }
{
    if MOST_STEPS < events.len() {
        return Err(Refusal::TooManyEvents);
    }
    match follow(alloc, low, events) {
        Ok(followed) => {
            let causes = causes_low(alloc, low, events);
            with_causes(followed, causes, List::new(alloc))
        }
        Err(fail) => Err(of_replay(fail)),
    }
}

/// What the source says in events of it.
fn source_side(alloc: Global, checked: &Checked, events: &[Event]) -> Result<Side, Refusal>
    ensures { IfOk result (λ side. map (λ step. step.event) side.followed.steps ≡ events.now) }
{
    law_runs_well();
    if MOST_STEPS < events.len() {
        return Err(Refusal::TooManyEvents);
    }
    let program = checked.program();
    match follow_high(alloc, program, events) {
        Ok(followed) => {
            let causes = causes_high(alloc, program, events);
            with_causes(followed, causes, List::new(alloc))
        }
        Err(fail) => Err(of_replay(fail)),
    }
}

/// The events of the source that are read off events of the sites, and what it says in them.
pub(super) fn high_side(
    alloc: Global,
    infrastructure: Infrastructure,
    checked: &Checked,
    events: &[Event],
) -> Result<Side, Refusal>
    ensures { IfOk result (λ side. map (λ step. step.event) side.followed.steps ≡ lift_by infrastructure events.now) }
{
    match lifted_by(alloc, infrastructure, events) {
        Ok(lifted) => source_side(alloc, checked, lifted.as_slice()),
        Err(Memory) => Err(Refusal::Memory),
    }
}

/// So many times 0.
fn zeros(alloc: Global, count: usize) -> Result<List<u32>, Memory> {
    let mut made = List::new(alloc);
    for _ in 0..count {
        made.add(0)?;
    }
    Ok(made)
}

/// Each event of the source has as its twin that of the sites from which it is read off, and this has it.
pub(super) fn join(
    alloc: Global,
    twins: &[u32],
    high: &mut Side,
    low: &mut Side,
) -> Result<(), Memory>
    ensures high { high.new.followed ≡ high.old.followed }
    ensures low { low.new.followed ≡ low.old.followed }
{
    let mut above = List::new(alloc);
    let mut below = zeros(alloc, low.followed.steps.len())?;
    let mut number = 0u32;
    for twin in twins {
        number = number.saturating_add(1);
        above.add(twin.saturating_add(1))?;
        if let Some(place) = below.as_mut_slice().get_mut(*twin as usize) {
            *place = number;
        }
    }
    high.twins = above;
    low.twins = below;
    Ok(())
}

/// Copies of steps.
fn copies_of(alloc: Global, steps: &[Step]) -> Result<List<Step>, Memory>
    ensures { IfOk result (λ made. made ≡ steps.now) }
{
    let mut made = List::new(alloc);
    for step in steps {
        made.add(step.copy(alloc)?)?;
    }
    Ok(made)
}

/// The first steps of a run, at most so many, with all that was printed.
pub(super) fn first_of(alloc: Global, followed: &Followed, most: usize) -> Result<Followed, Memory>
    ensures steps { IfOk result (λ first. first.steps ≡ take most followed.now.steps) }
    ensures most { IfOk result (λ first. length first.steps ≤ most) }
{
    let steps = followed.steps.as_slice();
    let (front, _) = steps.split_at(most.min(steps.len()));
    let printed = copy_texts(alloc, followed.printed.as_slice())?;
    let steps = copies_of(alloc, front)?;
    Ok(Followed {
        steps,
        printed,
        numbers: List::new(alloc),
        makers: List::new(alloc),
        pale: List::new(alloc),
    })
}
