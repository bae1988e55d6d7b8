//! The run in the calculus where migration is one step.

ghost use Rattle.std.specs.Prelude.{◌≡◌, ◌++◌, [], IsSome, IfOk, OnOk};
ghost use Rattle.np_calculus.specs.Begins.{arrival};
ghost use Rattle.np_calculus.specs.Reductions.{apply, run};
ghost use Rattle.np_calculus.specs.Starts.{start_high};
ghost use Rattle.run_views.specs.OneStep.{one_step};
ghost use Rattle.run_views.specs.Tests.{tests};
ghost use Rattle.run_views.specs.Stepped.{Advances, IsStepped, arrivals};

use super::turning::{agent_at, turn};
use np_check::Checked;
use np_conditions::way;
use np_configuration::{Cfg, start_high};
use np_syntax::{Event, Kind, List, Made, Memory, Name, Role, Tag};
use std::alloc::Global;

/// The run with each Arrive moved directly behind the Depart of its agent. A Depart that has no Arrive of its agent later in
/// the run gets one, at the site to which the agent is under way.
pub fn one_step(alloc: Global, p: &Checked, high: &[Event]) -> Result<List<Event>, Memory>
    requires run { IsSome (run (start_high p.now) high.now) }
    requires free { tests p.now.main ≡ [] }
    ensures { IfOk result (IsStepped p.now high.now) }
{
    match start_high(alloc, p.program()) {
        Ok(mut start) => {
            let made = one_step_on(alloc, &mut start, high);
            drop(start);
            made
        }
        Err(memory) => Err(memory),
    }
}

/// The same of a run that goes on from a configuration.
fn one_step_on(alloc: Global, reached: &mut Cfg, high: &[Event]) -> Result<List<Event>, Memory>
    requires { IsSome (run reached.old high.now) }
    ensures { IfOk result (λ made. made ≡ one_step reached.old high.now) }
{
    let mut made = List::new(alloc);
    for event in high {
        advance(alloc, reached, &mut made, event)?;
    }
    Ok(made)
}

/// Makes an event that is enabled, and appends what stands in its place.
fn advance(
    alloc: Global,
    reached: &mut Cfg,
    made: &mut List<Event>,
    event: &Event,
) -> Result<(), Memory>
    requires { IsSome (apply reached.old event.now) }
    ensures { OnOk result (Advances reached.old reached.new made.old made.new event.now) }
{
    let agent = agent_at(reached, event.actor);
    turn(alloc, reached, event)?;
    match event.kind {
        Kind::Arrive => Ok(()),
        Kind::Depart => {
            made.add(*event)?;
            add_arrival(made, reached, agent)
        }
        _ => made.add(*event),
    }
}

/// Appends the arrival of an agent at the site to which it is under way.
fn add_arrival(made: &mut List<Event>, reached: &Cfg, agent: Option<Name>) -> Result<(), Memory>
    ensures { OnOk result (made.new ≡ made.old ++ arrivals reached.now agent) }
{
    let Some(agent) = agent else {
        return Ok(());
    };
    let Some(place) = reached.place(agent) else {
        return Ok(());
    };
    let Some(site) = way(place) else {
        return Ok(());
    };
    made.add(arrival(agent, site))
}

/// The arrival of an agent at a site.
fn arrival(agent: Name, site: u32) -> Event
    ensures { result ≡ arrival agent site }
{
    Event {
        site,
        kind: Kind::Arrive,
        actor: agent,
        other: None,
        tag: Tag {
            node: 0,
            role: Role::Plain,
        },
        made: Made::Nothing,
    }
}
