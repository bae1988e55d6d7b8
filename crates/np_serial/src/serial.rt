ghost use Rattle.std.specs.Prelude.{◌≡◌, ◌↔◌, ◌+◌, ◌≤◌, [], Some, IfOk};
ghost use Rattle.np_calculus.specs.Begins.{AreNew};
ghost use Rattle.np_calculus.specs.Idle.{Idle};
ghost use Rattle.np_calculus.specs.Parts.{IsLodged};
ghost use Rattle.np_calculus.specs.Reductions.{apply};
ghost use Rattle.np_calculus.specs.Runs.{RunsWell};
ghost use Rattle.np_calculus.specs.Sight.{inside};
ghost use Rattle.np_calculus.specs.Starts.{start_high, start_low};
ghost use Rattle.np_calculus.specs.Well.{Has};
ghost use Rattle.np_configuration.specs.Next.{IsNext};
ghost use Rattle.np_serial.specs.Serial.{Advances, AreFresh, IsReached, IsSerialRun};

use super::events::event_of;
use np_configuration::{ApplyFail, Cfg, Step, apply, start_high, start_low};
use np_syntax::{Boxed, End, Event, List, LowProgram, MOST_SITES, Memory, Name, Program};
use std::alloc::Global;

/// A run: its events in order, the configuration that they lead to, and how it ended. The configuration stands on the heap, so what
/// holds a run is small.
#[derive(Drop)]
pub struct SerialRun {
    pub events: List<Event>,
    pub last: Boxed<Cfg>,
    pub end: End,
}

/// Runs a program at the high level, one event after another, for at most so many events. Agents that are under way
/// arrive first, then packets land, and then the atoms go on that the work lists keep as ready.
///
/// Event `n`, counted from 0, makes at most two names, and both have its number. The first is of the program's site; the
/// second is of a number that is no site and not the program's own, so it is none of the first ones and no own name.
pub fn run_serial(alloc: Global, p: &Program, budget: u32) -> Result<SerialRun, Memory>
    requires { RunsWell (start_high p.now) p.now.at }
    ensures { IfOk result (λ r. IsSerialRun (start_high p.now) budget r.events r.last r.end) }
{
    let start = start_high(alloc, p)?;
    run_from(alloc, start, p.at, budget)
}

/// Runs a low program in the same way, with the daemon beside main.
pub fn run_serial_low(alloc: Global, q: &LowProgram, budget: u32) -> Result<SerialRun, Memory>
    requires { RunsWell (start_low q.now) q.now.at }
    ensures { IfOk result (λ r. IsSerialRun (start_low q.now) budget r.events r.last r.end) }
{
    let start = start_low(alloc, q)?;
    run_from(alloc, start, q.at, budget)
}

/// Runs from a start. The first name that an event makes is of the site `at`.
fn run_from(alloc: Global, start: Cfg, at: u32, budget: u32) -> Result<SerialRun, Memory>
    requires runs { RunsWell start at }
    requires fresh { AreFresh start.born start.sites 0 }
    ensures { IfOk result (λ r. IsSerialRun start budget r.events r.last r.end) }
{
    let mut last = start;
    let mut events = List::new(alloc);
    match run_on(alloc, &mut last, &mut events, at, budget) {
        Ok(end) => {
            let last = Boxed::of(alloc, last)?;
            Ok(SerialRun { events, last, end })
        }
        Err(memory) => {
            drop(last);
            drop(events);
            Err(memory)
        }
    }
}

/// Makes the events of a run, and notes them.
fn run_on(
    alloc: Global,
    last: &mut Cfg,
    events: &mut List<Event>,
    at: u32,
    budget: u32,
) -> Result<End, Memory>
    requires runs { RunsWell last.old at }
    requires fresh { AreFresh last.old.born last.old.sites 0 }
    requires none { events.old ≡ [] }
    ensures { IfOk result (λ end. IsSerialRun last.old budget events.new last.new end) }
{
    let beyond = beyond(last);
    for n in 0..budget {
        let Some(step) = last.next() else {
            return Ok(End::Rest);
        };
        let first = Name { site: at, n };
        let second = Name { site: beyond, n };
        advance(alloc, last, events, step, first, second)?;
    }
    Ok(end_of(last))
}

/// Makes the event of the next step, which makes no names but these, and notes it behind the others.
fn advance(
    alloc: Global,
    c: &mut Cfg,
    events: &mut List<Event>,
    step: Step,
    first: Name,
    second: Name,
) -> Result<(), Memory>
    requires reached { IsReached c.old }
    requires next { IsNext c.old step }
    requires new { AreNew c.old first second }
    ensures { IfOk result (λ _. Advances c.old c.new events.old events.new first second) }
{
    let event = event_of(alloc, c, step, first, second)?;
    events.reserve(1)?;
    turn(alloc, c, &event)?;
    events.add(event)
}

/// A number that is no site's, and not the program's own.
fn beyond(start: &Cfg) -> u32
    requires { start.now.sites ≤ MOST_SITES }
    ensures { result ≡ start.now.sites + 1 }
{
    start.sites() + 1
}

/// How a run ends that has used its budget.
fn end_of(c: &mut Cfg) -> End
    requires { IsLodged (inside c.old) }
    ensures same { c.new ≡ c.old }
    ensures rest { (result ≡ End.Rest) ↔ Idle c.old }
    ensures spent { (result ≡ End.Spent) ↔ ¬ Idle c.old }
{
    match c.next() {
        Some(_) => End::Spent,
        None => End::Rest,
    }
}

/// Makes an event that is enabled.
fn turn(alloc: Global, c: &mut Cfg, event: &Event) -> Result<(), Memory>
    requires { Has (apply c.old event.now) }
    ensures { IfOk result (λ _. apply c.old event.now ≡ Some c.new) }
{
    match apply(alloc, c, event) {
        Ok(()) => Ok(()),
        Err(ApplyFail::Memory) => Err(Memory),
        Err(ApplyFail::NotEnabled) => unreachable!(),
    }
}
