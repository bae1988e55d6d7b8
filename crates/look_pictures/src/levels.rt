//! The pictures of the levels of a run.

ghost use Rattle.std.specs.Prelude.{◌≡◌, map, IfOk};
ghost use Rattle.np_calculus.specs.Runs.{RunsWell};
ghost use Rattle.np_calculus.specs.Starts.{start_low};
ghost use Rattle.picture_svg.specs.Pictures.{IsPicture, IsPictureOfBoth};
ghost use Rattle.np_on_sites.specs.ByInfrastructure.{lift_by};
ghost use Rattle.look_pictures.specs.Looks.{FollowsAt, IsPictureOf, IsPictureOfLevels, IsPictureOfPart, events_at};

use super::parts::part_shown;
use super::pasts::{high_past, low_past};
use look_sources::{followed_high, followed_low, followed_source, lifted_by, twins_by};
use look_words::{Level, Stretch, Wanted};
use np_check::Checked;
use np_syntax::{Event, List, LowProgram, Memory, Text};
use np_verdict::Refusal;
use picture_svg::{Binder, HIGH_UNIT, LOW_UNIT, both_text, picture_text};
use run_pictures::{Followed, MOST_STEPS};
use std::alloc::Global;

/// The steps of the sites, those pale that did not lead to a printed line, where one is given.
fn low_steps(
    alloc: Global,
    wanted: &Wanted,
    low: &LowProgram,
    events: &[Event],
) -> Result<Followed, Refusal>
    requires { RunsWell (start_low low.now) low.now.at }
    ensures { IfOk result (λ followed. map (λ step. step.event) followed.steps ≡ events.now) }
{
    match wanted.focus.past {
        Some(line) => low_past(alloc, line, low, events),
        None => followed_low(alloc, low, events),
    }
}

/// The steps of events of a source, those pale that did not lead to a printed line, where one is given.
fn source_steps(
    alloc: Global,
    wanted: &Wanted,
    checked: &Checked,
    events: &[Event],
) -> Result<Followed, Refusal>
    ensures { IfOk result (λ followed. map (λ step. step.event) followed.steps ≡ events.now) }
{
    match wanted.focus.past {
        Some(line) => high_past(alloc, line, checked, events),
        None => followed_source(alloc, checked, events),
    }
}

/// The steps of what is read off events, in the same way.
fn high_steps(
    alloc: Global,
    wanted: &Wanted,
    checked: &Checked,
    events: &[Event],
) -> Result<Followed, Refusal>
    ensures { IfOk result (λ followed. map (λ step. step.event) followed.steps ≡ lift_by wanted.now.infrastructure events.now) }
{
    match lifted_by(alloc, wanted.infrastructure, events) {
        Ok(lifted) => source_steps(alloc, wanted, checked, lifted.as_slice()),
        Err(Memory) => Err(Refusal::Memory),
    }
}

/// The picture of events of a source.
pub(super) fn whole_source(
    alloc: Global,
    wanted: &Wanted,
    binders: Result<List<Binder>, Memory>,
    checked: &Checked,
    events: &[Event],
) -> Result<Text, Refusal>
    ensures { IfOk result (IsPictureOf events.now) }
{
    let sites = &checked.program().sites;
    match source_steps(alloc, wanted, checked, events) {
        Ok(followed) => shown(alloc, wanted, Level::High, sites, binders, &followed),
        Err(refusal) => Err(refusal),
    }
}

/// The picture of a part of them.
pub(super) fn part_of_source(
    alloc: Global,
    wanted: &Wanted,
    stretch: Stretch,
    binders: Result<List<Binder>, Memory>,
    checked: &Checked,
    events: &[Event],
) -> Result<Text, Refusal>
    ensures { IfOk result (IsPictureOfPart stretch events.now) }
{
    let sites = &checked.program().sites;
    match source_steps(alloc, wanted, checked, events) {
        Ok(run) => part_shown(alloc, wanted, Level::High, stretch, sites, binders, &run),
        Err(refusal) => Err(refusal),
    }
}

/// The steps of a level.
fn followed_at(
    alloc: Global,
    wanted: &Wanted,
    level: Level,
    checked: &Checked,
    low: &LowProgram,
    events: &[Event],
) -> Result<Followed, Refusal>
    requires { RunsWell (start_low low.now) low.now.at }
    ensures { IfOk result (FollowsAt level wanted.now.infrastructure events.now) }
{
    match level {
        Level::Low => low_steps(alloc, wanted, low, events),
        Level::High => high_steps(alloc, wanted, checked, events),
    }
}

/// The picture of one level.
pub(super) fn one_level(
    alloc: Global,
    wanted: &Wanted,
    level: Level,
    binders: Result<List<Binder>, Memory>,
    checked: &Checked,
    low: &LowProgram,
    events: &[Event],
) -> Result<Text, Refusal>
    requires { RunsWell (start_low low.now) low.now.at }
    ensures { IfOk result (IsPictureOf (events_at level wanted.now.infrastructure events.now)) }
{
    match followed_at(alloc, wanted, level, checked, low, events) {
        Ok(followed) => shown(alloc, wanted, level, &low.sites, binders, &followed),
        Err(refusal) => Err(refusal),
    }
}

/// The picture of a part of a level.
pub(super) fn part_of_level(
    alloc: Global,
    wanted: &Wanted,
    level: Level,
    stretch: Stretch,
    binders: Result<List<Binder>, Memory>,
    checked: &Checked,
    low: &LowProgram,
    events: &[Event],
) -> Result<Text, Refusal>
    requires { RunsWell (start_low low.now) low.now.at }
    ensures { IfOk result (IsPictureOfPart stretch (events_at level wanted.now.infrastructure events.now)) }
{
    match followed_at(alloc, wanted, level, checked, low, events) {
        Ok(run) => part_shown(alloc, wanted, level, stretch, &low.sites, binders, &run),
        Err(refusal) => Err(refusal),
    }
}

/// Which steps are pale, as their twins are.
fn pale_beside(alloc: Global, pale: &[bool], twins: &[u32]) -> Result<List<bool>, Memory> {
    let mut made = List::new(alloc);
    for twin in twins {
        made.add(pale.get(*twin as usize).copied().unwrap_or(false))?;
    }
    Ok(made)
}

/// The steps of the source, pale as their twins are.
fn high_beside(
    alloc: Global,
    wanted: &Wanted,
    checked: &Checked,
    events: &[Event],
    pale: &[bool],
    twins: &[u32],
) -> Result<Followed, Refusal>
    ensures { IfOk result (λ followed. map (λ step. step.event) followed.steps ≡ lift_by wanted.now.infrastructure events.now) }
{
    let mut high = followed_high(alloc, wanted.infrastructure, checked, events)?;
    match pale_beside(alloc, pale, twins) {
        Ok(pale) => {
            high.pale = pale;
            Ok(high)
        }
        Err(Memory) => Err(Refusal::Memory),
    }
}

/// The picture of both levels.
pub(super) fn both_levels(
    alloc: Global,
    wanted: &Wanted,
    binders: Result<List<Binder>, Memory>,
    checked: &Checked,
    low: &LowProgram,
    events: &[Event],
) -> Result<Text, Refusal>
    requires { RunsWell (start_low low.now) low.now.at }
    ensures { IfOk result (IsPictureOfLevels wanted.now.infrastructure events.now) }
{
    let twins = twins_by(alloc, wanted.infrastructure, events)?;
    let numbers = twins.as_slice();
    let below = low_steps(alloc, wanted, low, events)?;
    let pale = below.pale.as_slice();
    let high = high_beside(alloc, wanted, checked, events, pale, numbers)?;
    shown_both(alloc, wanted, &low.sites, binders, &high, &below, numbers)
}

/// The picture of the steps of both levels, by the names that the source gives, if they were found.
fn shown_both(
    alloc: Global,
    wanted: &Wanted,
    sites: &List<Text>,
    binders: Result<List<Binder>, Memory>,
    high: &Followed,
    low: &Followed,
    twins: &[u32],
) -> Result<Text, Refusal>
    ensures { IfOk result (IsPictureOfBoth high.now.steps low.now.steps twins.now) }
{
    let Ok(binders) = binders else {
        return Err(Refusal::Memory);
    };
    if MOST_STEPS < high.steps.len() || MOST_STEPS < low.steps.len() {
        return Err(Refusal::TooManyEvents);
    }
    let title = wanted.file.text().as_bytes();
    match both_text(
        alloc,
        title,
        sites.as_slice(),
        binders.as_slice(),
        high,
        low,
        twins,
    ) {
        Ok(text) => Ok(text),
        Err(Memory) => Err(Refusal::Memory),
    }
}

/// What is counted at a level.
pub(super) fn unit_of(level: Level) -> &'static [u8] {
    match level {
        Level::Low => LOW_UNIT,
        Level::High => HIGH_UNIT,
    }
}

/// The picture of steps, by the names that the source gives, if they were found.
fn shown(
    alloc: Global,
    wanted: &Wanted,
    level: Level,
    sites: &List<Text>,
    binders: Result<List<Binder>, Memory>,
    followed: &Followed,
) -> Result<Text, Refusal>
    ensures { IfOk result (IsPicture followed.now.steps) }
{
    let Ok(binders) = binders else {
        return Err(Refusal::Memory);
    };
    if MOST_STEPS < followed.steps.len() {
        return Err(Refusal::TooManyEvents);
    }
    let title = wanted.file.text().as_bytes();
    let unit = unit_of(level);
    match picture_text(
        alloc,
        title,
        unit,
        sites.as_slice(),
        binders.as_slice(),
        followed,
    ) {
        Ok(text) => Ok(text),
        Err(Memory) => Err(Refusal::Memory),
    }
}
