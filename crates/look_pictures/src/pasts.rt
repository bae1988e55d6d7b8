//! What led to a printed line is strong, and all else is pale.

ghost use Rattle.std.specs.Prelude.{◌≡◌, ◌<◌, ◌^◌, length, map, slice_get, IfOk, IfSome, IsTrue};
ghost use Rattle.np_syntax.specs.declared.event.Kind.TheVariants as kind;
ghost use Rattle.np_calculus.specs.Runs.{RunsWell};
ghost use Rattle.np_calculus.specs.Starts.{start_high, start_low};
ghost use Rattle.run_steps.specs.Steps.{IsFollowed};
ghost use Rattle.run_views.specs.Pasts.{IsPrint};

use look_sources::of_replay;
use np_check::Checked;
use np_safety::law_runs_well;
use np_syntax::{Event, Kind, List, LowProgram, Memory, Program};
use np_verdict::Refusal;
use run_pictures::{Followed, MOST_STEPS, Step};
use run_steps::{follow, follow_high};
use run_views::{past, past_high};
use std::alloc::Global;

fn is_print(event: &Event) -> bool
    ensures { IsTrue result → event.now.kind ≡ kind.Print }
{
    matches!(event.kind, Kind::Print)
}

/// The number of an event, if that is a Print.
fn print_at(events: &[Event], index: u32) -> Option<u32>
    ensures { IfSome result (λ found. IsPrint (slice_get events.now found)) }
{
    match events.get(index as usize) {
        Some(event) if is_print(event) => Some(index),
        _ => None,
    }
}

/// The Print of a line, by its number. Lines count from 1.
fn print_of(events: &[Event], line: u32) -> Option<u32>
    requires { length events.now < 2 ^ 32 }
    ensures { IfSome result (λ found. IsPrint (slice_get events.now found)) }
{
    let mut printed = 0u32;
    for index in 0..events.len() {
        if is_print(&events[index]) {
            printed = printed.saturating_add(1);
            if printed == line {
                return print_at(events, index as u32);
            }
        }
    }
    None
}

/// Which steps did not lead to a line, where these events did.
fn pale_by(alloc: Global, steps: &[Step], led: &[Event]) -> Result<List<bool>, Memory> {
    let mut pale = List::new(alloc);
    let mut next = 0usize;
    for step in steps {
        let leads = match led.get(next) {
            Some(event) => *event == step.event,
            None => false,
        };
        if leads {
            next = next.saturating_add(1);
        }
        pale.add(!leads)?;
    }
    Ok(pale)
}

/// A run of which just these events are strong, if they were found.
fn faded(
    alloc: Global,
    mut run: Followed,
    led: Result<List<Event>, Memory>,
) -> Result<Followed, Refusal>
    ensures { IfOk result (λ made. made.steps ≡ run.steps) }
{
    let Ok(led) = led else {
        return Err(Refusal::Memory);
    };
    match pale_by(alloc, run.steps.as_slice(), led.as_slice()) {
        Ok(pale) => {
            run.pale = pale;
            Ok(run)
        }
        Err(Memory) => Err(Refusal::Memory),
    }
}

/// That a run printed no more lines than it did.
fn no_line(run: &Followed) -> Refusal {
    Refusal::NoLine(u32::try_from(run.printed.len()).unwrap_or(u32::MAX))
}

/// A run of a low program, of which just what led to a printed line is strong.
fn low_faded(
    alloc: Global,
    line: u32,
    low: &LowProgram,
    events: &[Event],
    run: Followed,
) -> Result<Followed, Refusal>
    requires sites { length low.now.sites < 2 ^ 32 }
    requires fits { length events.now < 2 ^ 32 }
    requires run { IsFollowed (start_low low.now) low.now.sites events.now run }
    ensures { IfOk result (λ made. map (λ step. step.event) made.steps ≡ events.now) }
{
    let Some(index) = print_of(events, line) else {
        return Err(no_line(&run));
    };
    let led = past(alloc, low, events, index);
    faded(alloc, run, led)
}

/// The steps of events of a low program, of which just what led to a printed line is strong.
pub(super) fn low_past(
    alloc: Global,
    line: u32,
    low: &LowProgram,
    events: &[Event],
) -> Result<Followed, Refusal>
    requires { RunsWell (start_low low.now) low.now.at }
    ensures { IfOk result (λ made. map (λ step. step.event) made.steps ≡ events.now) }
{
    if MOST_STEPS < events.len() {
        return Err(Refusal::TooManyEvents);
    }
    match follow(alloc, low, events) {
        Ok(run) => low_faded(alloc, line, low, events, run),
        Err(fail) => Err(of_replay(fail)),
    }
}

/// A run of a program of the high level, of which just what led to a printed line is strong.
fn high_faded(
    alloc: Global,
    line: u32,
    p: &Program,
    events: &[Event],
    run: Followed,
) -> Result<Followed, Refusal>
    requires sites { length p.now.sites < 2 ^ 32 }
    requires fits { length events.now < 2 ^ 32 }
    requires run { IsFollowed (start_high p.now) p.now.sites events.now run }
    ensures { IfOk result (λ made. map (λ step. step.event) made.steps ≡ events.now) }
{
    let Some(index) = print_of(events, line) else {
        return Err(no_line(&run));
    };
    let led = past_high(alloc, p, events, index);
    faded(alloc, run, led)
}

/// The steps of events of a source, of which just what led to a printed line is strong.
pub(super) fn high_past(
    alloc: Global,
    line: u32,
    checked: &Checked,
    events: &[Event],
) -> Result<Followed, Refusal>
    ensures { IfOk result (λ made. map (λ step. step.event) made.steps ≡ events.now) }
{
    law_runs_well();
    if MOST_STEPS < events.len() {
        return Err(Refusal::TooManyEvents);
    }
    let program = checked.program();
    match follow_high(alloc, program, events) {
        Ok(run) => high_faded(alloc, line, program, events, run),
        Err(fail) => Err(of_replay(fail)),
    }
}
