//! Runs by seed of the high level, and what both levels need.

ghost use Rattle.std.specs.Prelude.{◌≡◌, ◌+◌, ◌++◌, ◌∷◌, ◌↔◌, ◌≤◌, [], Some, IfOk, OnOk};
ghost use Rattle.np_calculus.specs.Begins.{AreNew};
ghost use Rattle.np_calculus.specs.Idle.{Idle};
ghost use Rattle.np_calculus.specs.Parts.{IsLodged};
ghost use Rattle.np_calculus.specs.Reductions.{apply};
ghost use Rattle.np_calculus.specs.Runs.{RunsWell};
ghost use Rattle.np_calculus.specs.Sight.{inside};
ghost use Rattle.np_calculus.specs.Starts.{start_high};
ghost use Rattle.np_calculus.specs.Well.{Has};
ghost use Rattle.np_serial.specs.Serial.{AreFresh, IsEnabled, IsReached, IsSerialRun};
ghost use Rattle.np_syntax.specs.declared.limits.TheConstants.{MOST_SITES};
ghost use Rattle.run_choices.specs.Choices.{IsChoice, event_by};
ghost use Rattle.run_choices.specs.Held.{Lists, held};
ghost use Rattle.run_choices.specs.Runs.{AreChosen, agent_in};
ghost use Rattle.run_choices.specs.Seeded.{Chooses, FirstMarks};

use super::choice::{Choice, Draw, drawn};
use super::events::{Fresh, event_of};
use super::waiting::Waiting;
use np_calculus::{DAEMON_MARK, MAIN_MARK};
use np_configuration::{ApplyFail, Cfg, apply, start_high};
use np_serial::SerialRun;
use np_syntax::{Boxed, End, Event, List, Memory, Name, Program};
use rand_core::SeedableRng;
use rand_pcg::Pcg32;
use std::alloc::Global;

/// Runs a program at the high level for at most so many events, each of them chosen by a generator of this seed.
pub fn run_seeded(alloc: Global, p: &Program, seed: u64, budget: u32) -> Result<SerialRun, Memory>
    requires { RunsWell (start_high p.now) p.now.at }
    ensures run { IfOk result (λ r. IsSerialRun (start_high p.now) budget r.events r.last r.end) }
    ensures drawn { IfOk result (λ r. AreChosen (start_high p.now) seed r.events) }
{
    let start = start_high(alloc, p)?;
    run_from(alloc, start, p.at, seed, budget)
}

/// Runs from a start. The first name that an event makes is of the site `at`.
fn run_from(alloc: Global, start: Cfg, at: u32, seed: u64, budget: u32) -> Result<SerialRun, Memory>
    requires runs { RunsWell start at }
    requires fresh { AreFresh start.born start.sites 0 }
    requires first { FirstMarks start }
    ensures run { IfOk result (λ r. IsSerialRun start budget r.events r.last r.end) }
    ensures drawn { IfOk result (λ r. AreChosen start seed r.events) }
{
    let mut last = start;
    let mut events = List::new(alloc);
    match run_on(alloc, &mut last, &mut events, at, seed, budget) {
        Ok(end) => {
            let last = Boxed::of(alloc, last)?;
            Ok(SerialRun { events, last, end })
        }
        Err(memory) => {
            drop(last);
            drop(events);
            Err(memory)
        }
    }
}

/// Makes the events of a run, and notes them.
fn run_on(
    alloc: Global,
    last: &mut Cfg,
    events: &mut List<Event>,
    at: u32,
    seed: u64,
    budget: u32,
) -> Result<End, Memory>
    requires runs { RunsWell last.old at }
    requires fresh { AreFresh last.old.born last.old.sites 0 }
    requires first { FirstMarks last.old }
    requires none { events.old ≡ [] }
    ensures run { IfOk result (λ end. IsSerialRun last.old budget events.new last.new end) }
    ensures drawn { IfOk result (λ end. AreChosen last.old seed events.new) }
{
    let mut waiting = first_waiting(alloc, last)?;
    let mut words = Pcg32::seed_from_u64(seed);
    let beyond = beyond(last);
    for n in 0..budget {
        let draw = drawn(&mut words);
        let Some(choice) = waiting.chosen(&draw) else {
            return Ok(End::Rest);
        };
        let fresh = Fresh {
            first: Name { site: at, n },
            second: Name { site: beyond, n },
        };
        advance(alloc, last, &mut waiting, events, choice, fresh)?;
    }
    Ok(end_of(last, &waiting))
}

/// All that can happen at a start.
pub fn first_waiting(alloc: Global, start: &Cfg) -> Result<Waiting, Memory>
    requires { FirstMarks start.now }
    ensures { IfOk result (λ waiting. Lists start.now (held waiting)) }
{
    let mut waiting = Waiting::new(alloc);
    let site = start.sites();
    waiting.refresh(start, Name { site, n: MAIN_MARK })?;
    waiting.refresh(
        start,
        Name {
            site,
            n: DAEMON_MARK,
        },
    )?;
    Ok(waiting)
}

/// Makes the event of a choice, which makes no names but these, and notes it behind the others.
fn advance(
    alloc: Global,
    c: &mut Cfg,
    waiting: &mut Waiting,
    events: &mut List<Event>,
    choice: Choice,
    fresh: Fresh,
) -> Result<(), Memory>
    requires reached { IsReached c.old }
    requires lists { Lists c.old (held waiting.old) }
    requires choice { IsChoice c.old choice }
    requires new { AreNew c.old fresh.first fresh.second }
    ensures made { OnOk result (Chooses c.old c.new events.old events.new choice fresh.first fresh.second) }
    ensures lists { OnOk result (Lists c.new (held waiting.new)) }
{
    let event = enabled(alloc, c, choice, fresh)?;
    make(alloc, c, waiting, events, event)
}

/// Makes an event that is enabled, lists anew what it touched, and notes it behind the others.
pub fn make(
    alloc: Global,
    c: &mut Cfg,
    waiting: &mut Waiting,
    events: &mut List<Event>,
    event: Event,
) -> Result<(), Memory>
    requires enabled { Has (apply c.old event) }
    requires lists { Lists c.old (held waiting.old) }
    ensures leads { OnOk result (apply c.old event ≡ Some c.new) }
    ensures noted { OnOk result (events.new ≡ events.old ++ event ∷ []) }
    ensures lists { OnOk result (Lists c.new (held waiting.new)) }
{
    let agent = agent_in(c, event.actor);
    turn(alloc, c, &event)?;
    waiting.follow(c, &event, agent)?;
    events.add(event)
}

/// The event of a choice.
fn enabled(alloc: Global, c: &Cfg, choice: Choice, fresh: Fresh) -> Result<Event, Memory>
    requires reached { IsReached c.now }
    requires choice { IsChoice c.now choice }
    requires new { AreNew c.now fresh.first fresh.second }
    ensures event { IfOk result (λ event. event_by c.now choice fresh.first fresh.second ≡ Some event) }
    ensures enabled { IfOk result (λ event. IsEnabled c.now event fresh.first fresh.second) }
{
    let event = event_of(alloc, c, choice, fresh)?;
    match event {
        Some(event) => Ok(event),
        None => unreachable!(),
    }
}

/// The agent of the atom of a mark.
fn agent_in(c: &Cfg, mark: Name) -> Option<Name>
    ensures { result ≡ agent_in c.now mark }
{
    Some(c.atom(mark)?.agent)
}

/// A number that is no site's, and not the program's own.
fn beyond(start: &Cfg) -> u32
    requires { start.now.sites ≤ MOST_SITES }
    ensures { result ≡ start.now.sites + 1 }
{
    start.sites() + 1
}

/// How a run ends that has used its budget.
pub fn end_of(last: &Cfg, waiting: &Waiting) -> End
    requires lodged { IsLodged (inside last.now) }
    requires lists { Lists last.now (held waiting.now) }
    ensures rest { (result ≡ End.Rest) ↔ Idle last.now }
    ensures spent { (result ≡ End.Spent) ↔ ¬ Idle last.now }
{
    let _ = last.sites();
    let draw = Draw {
        entry: 0,
        input: 0,
        output: 0,
    };
    match waiting.chosen(&draw) {
        Some(_) => End::Spent,
        None => End::Rest,
    }
}

/// Makes an event that is enabled.
fn turn(alloc: Global, c: &mut Cfg, event: &Event) -> Result<(), Memory>
    requires { Has (apply c.old event.now) }
    ensures { OnOk result (apply c.old event.now ≡ Some c.new) }
{
    match apply(alloc, c, event) {
        Ok(()) => Ok(()),
        Err(ApplyFail::Memory) => Err(Memory),
        Err(ApplyFail::NotEnabled) => unreachable!(),
    }
}
