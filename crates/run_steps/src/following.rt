//! Following a run, one event after another.

ghost use Rattle.std.specs.Prelude.{◌≡◌, ◌∷◌, ◌++◌, [], ◌<◌, ◌^◌, length, map, None, Some, IfErr, IfOk, OnOk};
ghost use Rattle.np_syntax.specs.Printed.{value_text};
ghost use Rattle.np_calculus.specs.Reductions.{apply, run};
ghost use Rattle.np_calculus.specs.Starts.{start_high, start_low};
ghost use Rattle.np_configuration.specs.declared.fail.ApplyFail.TheVariants as apply_fail;
ghost use Rattle.np_serial.specs.declared.fail.ReplayFail.TheVariants as fail;
ghost use Rattle.np_serial.specs.Replays.{IsRefusal};
ghost use Rattle.run_steps.specs.Steps.{IsFollowed, Takes, actor_in, agent_in, goal_in, steps, target_in};

use super::messages::{coming_in, either, going_in};
use np_configuration::{ApplyFail, Cfg, apply, start_high, start_low};
use np_serial::ReplayFail;
use np_syntax::{
    Event, Kind, List, LowProgram, Made, Memory, Name, Program, Text, Value, print_value,
};
use run_pictures::{Followed, Step};
use std::alloc::Global;

/// Follows the events of a low program from its start, or tells where they stop being a run.
pub fn follow(alloc: Global, low: &LowProgram, events: &[Event]) -> Result<Followed, ReplayFail>
    requires sites { length low.now.sites < 2 ^ 32 }
    requires events { length events.now < 2 ^ 32 }
    ensures made { IfOk result (IsFollowed (start_low low.now) low.now.sites events.now) }
    ensures refused { IfErr result (IsRefusal (start_low low.now) events.now) }
{
    match start_low(alloc, low) {
        Ok(mut start) => {
            let made = followed(alloc, &mut start, &low.sites, events);
            drop(start);
            made
        }
        Err(Memory) => Err(ReplayFail::Memory),
    }
}

/// The same for the events of a program of the high level.
pub fn follow_high(alloc: Global, p: &Program, events: &[Event]) -> Result<Followed, ReplayFail>
    requires sites { length p.now.sites < 2 ^ 32 }
    requires events { length events.now < 2 ^ 32 }
    ensures made { IfOk result (IsFollowed (start_high p.now) p.now.sites events.now) }
    ensures refused { IfErr result (IsRefusal (start_high p.now) events.now) }
{
    match start_high(alloc, p) {
        Ok(mut start) => {
            let made = followed(alloc, &mut start, &p.sites, events);
            drop(start);
            made
        }
        Err(Memory) => Err(ReplayFail::Memory),
    }
}

/// Follows events from a configuration on.
fn followed(
    alloc: Global,
    reached: &mut Cfg,
    sites: &List<Text>,
    events: &[Event],
) -> Result<Followed, ReplayFail>
    requires { length events.now < 2 ^ 32 }
    ensures made { IfOk result (IsFollowed reached.old sites.now events.now) }
    ensures refused { IfErr result (IsRefusal reached.old events.now) }
{
    let steps = steps_on(alloc, reached, events)?;
    match printed_texts(alloc, sites, reached.said()) {
        Ok(printed) => Ok(Followed {
            steps,
            printed,
            numbers: List::new(alloc),
            makers: List::new(alloc),
            pale: List::new(alloc),
        }),
        Err(Memory) => Err(ReplayFail::Memory),
    }
}

/// The texts of the values that were printed.
fn printed_texts(
    alloc: Global,
    sites: &List<Text>,
    said: &[(u32, Value)],
) -> Result<List<Text>, Memory>
    ensures { IfOk result (λ texts. texts ≡ map (λ item. value_text sites.now item.1) said.now) }
{
    let mut texts = List::new(alloc);
    for (_, value) in said {
        texts.add(print_value(alloc, value, sites)?)?;
    }
    Ok(texts)
}

/// The steps of events that go on from a configuration.
fn steps_on(alloc: Global, reached: &mut Cfg, events: &[Event]) -> Result<List<Step>, ReplayFail>
    requires { length events.now < 2 ^ 32 }
    ensures steps { IfOk result (λ made. made ≡ steps reached.old events.now) }
    ensures reached { OnOk result (run reached.old events.now ≡ Some reached.new) }
    ensures refused { IfErr result (IsRefusal reached.old events.now) }
{
    let mut made = List::new(alloc);
    let mut index = 0;
    for event in events {
        match take_step(alloc, reached, event) {
            Ok(step) => add_step(&mut made, step)?,
            Err(ApplyFail::NotEnabled) => return Err(ReplayFail::NotARun(index)),
            Err(ApplyFail::Memory) => return Err(ReplayFail::Memory),
        }
        index += 1;
    }
    Ok(made)
}

fn add_step(made: &mut List<Step>, step: Step) -> Result<(), ReplayFail>
    ensures added { OnOk result (made.new ≡ made.old ++ step ∷ []) }
    ensures refused { IfErr result (λ refused. refused ≡ fail.Memory) }
{
    match made.add(step) {
        Ok(()) => Ok(()),
        Err(Memory) => Err(ReplayFail::Memory),
    }
}

/// Makes an event, and tells what it is.
fn take_step(alloc: Global, reached: &mut Cfg, event: &Event) -> Result<Step, ApplyFail>
    ensures made { IfOk result (Takes reached.old reached.new event.now) }
    ensures refused { IfErr result (λ refused. refused ≡ apply_fail.NotEnabled → apply reached.old event.now ≡ None) }
{
    let agent = agent_in(reached, event);
    let here = reached.is_at(agent, event.site);
    let coming = coming_in(alloc, reached, event)?;
    apply(alloc, reached, event)?;
    let going = going_in(alloc, reached, event)?;
    Ok(Step {
        event: *event,
        agent,
        here,
        target: goal_in(reached, event),
        message: either(coming, going),
    })
}

/// Who acts in an event.
fn agent_in(reached: &Cfg, event: &Event) -> Name
    ensures { result ≡ agent_in reached.now event.now }
{
    let found = match event.kind {
        Kind::Arrive => None,
        Kind::Land => target_in(reached, event.actor),
        _ => actor_in(reached, event.actor),
    };
    found.unwrap_or(event.actor)
}

/// The agent of the atom of a mark.
fn actor_in(reached: &Cfg, mark: Name) -> Option<Name>
    ensures { result ≡ actor_in reached.now mark }
{
    Some(reached.atom(mark)?.agent)
}

/// To whom goes what an event sends, as it stands after the event.
fn goal_in(reached: &Cfg, event: &Event) -> Option<Name>
    ensures { result ≡ goal_in event.now.kind reached.now event.now }
{
    match event.kind {
        Kind::Post => actor_in(reached, event.actor),
        Kind::Local => match event.made {
            Made::One(mark) => actor_in(reached, mark),
            Made::Nothing | Made::Two(_, _) => None,
        },
        _ => target_in(reached, event.actor),
    }
}

/// The agent to which the packet of a mark goes.
fn target_in(reached: &Cfg, mark: Name) -> Option<Name>
    ensures { result ≡ target_in reached.now mark }
{
    Some(reached.packet(mark)?.agent)
}
