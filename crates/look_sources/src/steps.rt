//! The steps of the events of a level, as they are followed.

ghost use Rattle.std.specs.Prelude.{◌≡◌, ◌<◌, ◌≤◌, ◌^◌, length, map, IfOk};
ghost use Rattle.np_calculus.specs.Runs.{RunsWell};
ghost use Rattle.np_calculus.specs.Starts.{start_low};
ghost use Rattle.np_on_sites.specs.ByInfrastructure.{lift_by};

use super::programs::lifted_by;
use np_check::Checked;
use np_safety::law_runs_well;
use np_serial::ReplayFail;
use np_syntax::{Event, LowProgram, Memory};
use np_verdict::Refusal;
use np_words::Infrastructure;
use run_pictures::{Followed, MOST_STEPS};
use run_steps::{follow, follow_high};
use std::alloc::Global;

/// Why events are not followed.
pub fn of_replay(fail: ReplayFail) -> Refusal {
    match fail {
        ReplayFail::Memory => Refusal::Memory,
        ReplayFail::NotARun(index) => Refusal::NotARun(index),
    }
}

/// The steps of events of a low program.
pub fn followed_low(alloc: Global, low: &LowProgram, events: &[Event]) -> Result<Followed, Refusal>
    requires { RunsWell (start_low low.now) low.now.at }
    ensures { IfOk result (λ followed. map (λ step. step.event) followed.steps ≡ events.now) }
{
    if MOST_STEPS < events.len() {
        return Err(Refusal::TooManyEvents);
    }
    match follow(alloc, low, events) {
        Ok(followed) => Ok(followed),
        Err(fail) => Err(of_replay(fail)),
    }
}

/// The steps of the events of the source that are read off events.
pub fn followed_high(
    alloc: Global,
    infrastructure: Infrastructure,
    checked: &Checked,
    events: &[Event],
) -> Result<Followed, Refusal>
    ensures { IfOk result (λ followed. map (λ step. step.event) followed.steps ≡ lift_by infrastructure events.now) }
{
    match lifted_by(alloc, infrastructure, events) {
        Ok(lifted) => followed_source(alloc, checked, lifted.as_slice()),
        Err(Memory) => Err(Refusal::Memory),
    }
}

/// The steps of events of a source.
pub fn followed_source(
    alloc: Global,
    checked: &Checked,
    events: &[Event],
) -> Result<Followed, Refusal>
    ensures { IfOk result (λ followed. map (λ step. step.event) followed.steps ≡ events.now) }
{
    law_runs_well();
    if MOST_STEPS < events.len() {
        return Err(Refusal::TooManyEvents);
    }
    match follow_high(alloc, checked.program(), events) {
        Ok(followed) => Ok(followed),
        Err(fail) => Err(of_replay(fail)),
    }
}
